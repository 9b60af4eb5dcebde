//! The texts of help.

pub(crate) const PROGRAM: &str = "Longest-prefix match of IPv4 addresses";

pub(crate) const AFTER_PROGRAM: &str = "\
Files:
  A file is text with one item a line. Empty lines and lines that begin with `#`
  are skipped. The path `-` is standard input. Only one of the files can be.

  Route file, a prefix and a next hop (0 to 16777215). A prefix that stands twice
  has the later next hop:
    10.0.0.0/8 5

  Address file, an address:
    10.1.2.3

  Update file, the first line as here, then an update on each line:
    lpm-updates 2
    add 10.0.0.0/8 5
    del 10.0.0.0/8
    flush
    reclaim 16
    online 0
    quiescent 0
    offline 0
  `flush` deletes all routes. `reclaim 16` frees at most 16 of the groups that were
  given up. The last three are reports of worker 0: it begins to read, it holds
  nothing that it read before, it has ended. `storm` skips them: its workers are
  threads and report by themselves. A file of version 1 lacks the first line: see
  `migrate`.

Memory:
  64 MiB for the first table (2^24 words of 4 bytes), 1 KiB for each group, 15 to
  22 bytes for each rule, and 24 bytes for each line of the route file. `lookup`
  makes no more groups than the file has routes longer than 24 bits. It copies the
  table into one that its workers share. While it does so it takes 128 MiB in place
  of 64 MiB, and 2 KiB for each group. `storm` takes as much once the routes are
  loaded, for all groups, and then 32 bytes for each answer. `migrate` makes no
  table.

Exit status:
  0  done, or help or the version was asked for
  2  the command line isn't accepted
  3  a file can't be read, or the output can't be written
  4  a file has a fault, as `routes.txt:12: bad length`
  5  out of memory
  6  refused, as `refused 3 TooManyRules`, where `--rules` has to be greater, or
     `refused 7 NoGroups`, where `--groups` has to be greater";

pub(crate) const LOOKUP: &str =
    "Prints for each address the next hop of its longest matching route, or `-`";

pub(crate) const AFTER_LOOKUP: &str = "\
Example:
  lpmtool lookup routes.txt addresses.txt

Output, a line for each address. No route contains the second one:
  10.1.2.3 5
  192.0.2.1 -

The path `-` is standard input. Only one of the files can be. Where a route is refused,
nothing is printed. Give a greater number:
  --rules    at `refused 3 TooManyRules`
  --groups   at `refused 7 NoGroups`
  --workers  at `refused 8 NoWorkers`

ADDRESSES is a file, and an address in its place is taken for the path of one. For
addresses that are words of the command line, and for the rules behind an answer:
  lpmtool explain routes.txt 10.1.2.3

Memory: up to 128 MiB, 2 KiB for each group, and 15 to 22 bytes for each rule. No more
groups are made than there are routes longer than 24 bits.
Exit status: 0 done, 2 words, 3 can't read or write, 4 a faulty file, 5 out of memory,
6 refused. More in `lpmtool --help`.";

pub(crate) const EXPLAIN: &str =
    "Prints for each address the rule that answers, shorter ones, and the words of the table";

pub(crate) const AFTER_EXPLAIN: &str = "\
Example:
  lpmtool explain routes.txt 10.1.1.128 192.0.2.1

Output, these lines for the first address:
  address 10.1.1.128
  hop 3                    the next hop, or `-` where no rule contains the address
  rule 10.1.1.128/25       the longest rule that contains it, or `-`
  cover 10.1.0.0/16 2      each shorter rule that contains it, with its next hop,
  cover 10.0.0.0/8 1       the longest first
  tbl24 655617 0x03000000  the first word that a lookup reads: its place and the word
  group 0                  the group that this word names: no line where it names none
  tbl8 128 0x65000003      the second word that a lookup reads, in that group: likewise
And these for the second, which no rule contains:
  address 192.0.2.1
  hop -
  rule -
  tbl24 12582914 0x00000000

The path `-` is standard input. Each ADDRESS is checked before the file is read. Where a
route is refused, nothing is printed. Give a greater number:
  --rules   at `refused 3 TooManyRules`
  --groups  at `refused 7 NoGroups`

Memory: 64 MiB, 1 KiB for each group, and 15 to 22 bytes for each rule.
Exit status: 0 done, 2 words, 3 can't read or write, 4 a faulty file, 5 out of memory,
6 refused. More in `lpmtool --help`.";

pub(crate) const APPLY: &str =
    "Prints the outcome of each update of the routes, then the next hop of each address";

pub(crate) const AFTER_APPLY: &str = "\
Example:
  lpmtool apply routes.txt updates.txt addresses.txt

Output, first a line for each update:
  added                  of `add 10.0.0.0/8 5`, or `replaced`, or `unchanged`
  deleted 5              of `del 10.0.0.0/8`, with its next hop
  flushed 2              of `flush`, with the number of routes that it deleted
  reclaimed 1            of `reclaim 16`, with the number of groups that it freed;
                         `stopped worker 0 counter 1` follows where worker 0 holds more
  ok                     of `online 0`, `quiescent 0` and `offline 0`
  refused 4 NoSuchRule   of an update that is refused: it changes nothing
Then a line for each address. No route contains the second one:
  10.1.2.3 5
  192.0.2.1 -

The path `-` is standard input. Only one of the files can be. Where a route of the route
file is refused, nothing is printed. Give a greater number:
  --rules    at `refused 3 TooManyRules`
  --groups   at `refused 7 NoGroups`
  --workers  at `refused 8 NoWorkers` and `refused 10 NoSuchWorker`

Memory: 64 MiB, 1 KiB for each group, and 15 to 22 bytes for each rule.
Exit status: 0 done, 2 words, 3 can't read or write, 4 a faulty file, 5 out of memory,
6 refused. More in `lpmtool --help`.";

pub(crate) const REPORT: &str = "Prints what the table holds after the updates of the routes";

pub(crate) const AFTER_REPORT: &str = "\
Example:
  lpmtool report routes.txt updates.txt

Output, these lines with the numbers of the table:
  rules 3      the routes in the table
  versions 5   the changes made, those of the route file too
  in use 1     the groups in use
  limbo 0      the groups that were given up and aren't free yet
  free 255     the groups that are free
  token 2      the token, which counts up as groups are given up

The path `-` is standard input. Only one of the files can be. Where a route of the route
file is refused, nothing is printed. Give a greater number:
  --rules   at `refused 3 TooManyRules`
  --groups  at `refused 7 NoGroups`

Memory: 64 MiB, 1 KiB for each group, and 15 to 22 bytes for each rule.
Exit status: 0 done, 2 words, 3 can't read or write, 4 a faulty file, 5 out of memory,
6 refused. More in `lpmtool --help`.";

pub(crate) const STORM: &str =
    "Looks the addresses up while the updates are made, and counts wrong answers";

pub(crate) const AFTER_STORM: &str = "\
Example:
  lpmtool storm --workers 2 --rounds 50 routes.txt updates.txt addresses.txt

The routes are loaded. Then each worker has a thread of its own: it goes online,
looks all addresses up, round after round, and goes offline. After each round it
reports a quiescent state: it holds nothing that it read before. Meanwhile one
more thread, the writer, makes the updates. It skips the lines `online`,
`quiescent` and `offline`. When all threads have ended, the writer frees each
group that was given up, and every answer is held against the versions of the
rules.

Output, nine lines, here of three routes, two updates and four addresses:
  answers 400   the answers: workers times rounds times addresses
  refused 0     the `add`, `del` and `flush` lines that were refused
  wrong 0       the answers that no version of the rules explains
  rules 3       the routes in the table
  versions 5    the changes made, those of the route file too
  in use 1      the groups in use
  limbo 0       the groups that were given up and aren't free: none in the end
  free 255      the groups that are free
  token 3       the token, which counts up as groups are given up, and once more
Each lookup notes which versions there were while it ran. Its answer is wrong if
the rules of none of them give it.

The number at `refused` can depend on how the threads ran: an `add` that finds
no free group is refused while a worker may still read those that were given up.
With `--stuck` one worker may do so until the last update is made.

The path `-` is standard input. Only one of the files can be. Where one of these
ends the run, nothing is printed:
  refused 3 TooManyRules   at a route: give a greater --rules
  refused 7 NoGroups       at a route: give a greater --groups
  refused 8 NoWorkers      give at least --workers 1
  refused 5 BadConfig      more than 16777216 answers: give a smaller --rounds
  refused 12 NoThread      a thread can't be started: give a smaller --workers

Memory: 128 MiB and 2 KiB for each group while the table is opened, and then
64 MiB, 1 KiB for each group, 15 to 22 bytes for each rule, and 32 bytes for
each answer: up to 512 MiB for all answers.
Exit status: 0 done, also where answers are wrong, 2 words, 3 can't read or
write, 4 a faulty file, 5 out of memory, 6 refused. More in `lpmtool --help`.";

pub(crate) const MIGRATE: &str = "Prints an update file of version 1 as one of version 2";

pub(crate) const AFTER_MIGRATE: &str = "\
Example:
  lpmtool migrate old.txt

A file of version 1 lacks the line `lpm-updates 2`:
  # nightly
  add   10.1.2.3/8   5
  flush

Output, the same updates with one space between fields, prefixes without host bits, and
no comments:
  lpm-updates 2
  add 10.0.0.0/8 5
  flush

The path `-` is standard input.
Exit status: 0 done, 2 words, 3 can't read or write, 4 a faulty file, 5 out of memory.
More in `lpmtool --help`.";

pub(crate) const ROUTES: &str = "\
The route file. Each line is a prefix and a next hop, as `10.0.0.0/8 5`.
A prefix that stands twice has the later next hop";

pub(crate) const ADDRESSES: &str = "The address file. Each line is an address, as `10.1.2.3`";

pub(crate) const ADDRESS: &str = "An address, as `10.1.2.3`. More than one can be given";

pub(crate) const UPDATES: &str = "\
The update file. The first line is `lpm-updates 2`. Each line after it is an
update: `add 10.0.0.0/8 5`, `del 10.0.0.0/8`, `flush`, `reclaim 16`, `online 0`,
`quiescent 0`, `offline 0`";

pub(crate) const OLD: &str =
    "The update file of version 1. Each line is an update, as `add 10.0.0.0/8 5`";

pub(crate) const RULES: &str = "\
The greatest number of rules that the table holds, 1 to 16777216.
Rules take memory as they come";

pub(crate) const GROUPS: &str = "\
The number of groups, 1 to 65536. Each block of 256 addresses with a route
longer than 24 bits needs one";

pub(crate) const WORKERS: &str = "\
The number of workers, 0 to 1024. Looking addresses up takes at least 1 of
them. An update file names them by the numbers from 0 to N - 1";

pub(crate) const THRESHOLD: &str = "\
A group that was given up waits in limbo until no worker can hold it. Where
more than N wait, 0 to 65536, a change that gives up one more first frees some";

pub(crate) const MAX: &str = "The most groups that a change frees so, 1 to 65536";

pub(crate) const ROUNDS: &str = "\
How often each worker looks all addresses up, 1 to 1000000.
All workers together give at most 16777216 answers";

pub(crate) const STUCK: &str = "\
Has one worker more: online from before the first update until after
the last, it looks nothing up. So no group that is given up meanwhile
can be used again";

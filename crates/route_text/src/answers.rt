//! The text of answers.
ghost use Rattle.std.specs.Prelude.{◌≡◌, ◌+◌, ◌*◌, ◌≤◌, ◌<◌, ◌∷◌, ◌++◌, IfOk};
ghost use Rattle.std.specs.Prelude.{length, drop, decimal};
ghost use Rattle.route_text.specs.Texts.{address_text, hop_text, answer_lines};

use itoa::write_digits;
use lpm_bits::Hop;
use std::alloc::{AllocError, Global};

/// Four bytes for each octet, from 0 on: how many digits it has, and then these digits at the end of
/// three bytes.
static OCTETS: [u8; 1024] =
    *b"\x01  0\x01  1\x01  2\x01  3\x01  4\x01  5\x01  6\x01  7\x01  8\x01  9\
       \x02 10\x02 11\x02 12\x02 13\x02 14\x02 15\x02 16\x02 17\x02 18\x02 19\
       \x02 20\x02 21\x02 22\x02 23\x02 24\x02 25\x02 26\x02 27\x02 28\x02 29\
       \x02 30\x02 31\x02 32\x02 33\x02 34\x02 35\x02 36\x02 37\x02 38\x02 39\
       \x02 40\x02 41\x02 42\x02 43\x02 44\x02 45\x02 46\x02 47\x02 48\x02 49\
       \x02 50\x02 51\x02 52\x02 53\x02 54\x02 55\x02 56\x02 57\x02 58\x02 59\
       \x02 60\x02 61\x02 62\x02 63\x02 64\x02 65\x02 66\x02 67\x02 68\x02 69\
       \x02 70\x02 71\x02 72\x02 73\x02 74\x02 75\x02 76\x02 77\x02 78\x02 79\
       \x02 80\x02 81\x02 82\x02 83\x02 84\x02 85\x02 86\x02 87\x02 88\x02 89\
       \x02 90\x02 91\x02 92\x02 93\x02 94\x02 95\x02 96\x02 97\x02 98\x02 99\
       \x03100\x03101\x03102\x03103\x03104\x03105\x03106\x03107\x03108\x03109\
       \x03110\x03111\x03112\x03113\x03114\x03115\x03116\x03117\x03118\x03119\
       \x03120\x03121\x03122\x03123\x03124\x03125\x03126\x03127\x03128\x03129\
       \x03130\x03131\x03132\x03133\x03134\x03135\x03136\x03137\x03138\x03139\
       \x03140\x03141\x03142\x03143\x03144\x03145\x03146\x03147\x03148\x03149\
       \x03150\x03151\x03152\x03153\x03154\x03155\x03156\x03157\x03158\x03159\
       \x03160\x03161\x03162\x03163\x03164\x03165\x03166\x03167\x03168\x03169\
       \x03170\x03171\x03172\x03173\x03174\x03175\x03176\x03177\x03178\x03179\
       \x03180\x03181\x03182\x03183\x03184\x03185\x03186\x03187\x03188\x03189\
       \x03190\x03191\x03192\x03193\x03194\x03195\x03196\x03197\x03198\x03199\
       \x03200\x03201\x03202\x03203\x03204\x03205\x03206\x03207\x03208\x03209\
       \x03210\x03211\x03212\x03213\x03214\x03215\x03216\x03217\x03218\x03219\
       \x03220\x03221\x03222\x03223\x03224\x03225\x03226\x03227\x03228\x03229\
       \x03230\x03231\x03232\x03233\x03234\x03235\x03236\x03237\x03238\x03239\
       \x03240\x03241\x03242\x03243\x03244\x03245\x03246\x03247\x03248\x03249\
       \x03250\x03251\x03252\x03253\x03254\x03255";

/// The bytes of the longest address, as `255.255.255.255`, and the one before them, which `put_octet`
/// may change.
pub(crate) const ADDRESS_ROOM: usize = 16;

/// The same of the longest line, as `255.255.255.255 16777215` and LF.
const LINE_ROOM: usize = 26;

/// How many lines are formed before they are added to the text.
const BLOCK_LINES: usize = 64;

/// The room for so many lines.
const BLOCK_ROOM: usize = BLOCK_LINES * LINE_ROOM;

/// The bytes of the shortest line, as `0.0.0.0 -` and LF.
const SHORTEST_LINE: usize = 10;

/// Writes the byte so that it ends at `end`, and returns where it starts.
#[inline(always)]
fn put_byte(byte: u8, line: &mut [u8], end: usize) -> usize
    requires { (0 < end) × (end ≤ length line.old) }
    ensures start { result + 1 ≡ end }
    ensures written { drop result line.new ≡ byte ∷ drop end line.old }
{
    line[end - 1] = byte;
    end - 1
}

/// Writes the octet so that it ends at `end`, and returns where it starts. The bytes before it may
/// change: always four bytes are written.
#[inline(always)]
fn put_octet(octet: u32, line: &mut [u8], end: usize) -> usize
    requires fits { octet < 256 }
    requires room { (4 ≤ end) × (end ≤ length line.old) }
    ensures start { (result < end) × (end ≤ result + 3) }
    ensures written { drop result line.new ≡ decimal octet ++ drop end line.old }
{
    let entry = octet as usize * 4;
    let low = put_byte(OCTETS[entry + 3], line, end);
    let low = put_byte(OCTETS[entry + 2], line, low);
    let low = put_byte(OCTETS[entry + 1], line, low);
    put_byte(OCTETS[entry], line, low);
    end - usize::from(OCTETS[entry])
}

/// Writes the address so that it ends at `end`, and returns where it starts.
#[inline(always)]
pub(crate) fn put_address(addr: u32, line: &mut [u8], end: usize) -> usize
    requires { (ADDRESS_ROOM ≤ end) × (end ≤ length line.old) }
    ensures start { (result ≤ end) × (end ≤ result + 15) }
    ensures written { drop result line.new ≡ address_text addr ++ drop end line.old }
{
    let end = put_octet(addr % 256, line, end);
    let end = put_byte(b'.', line, end);
    let end = put_octet(addr / 256 % 256, line, end);
    let end = put_byte(b'.', line, end);
    let end = put_octet(addr / 65_536 % 256, line, end);
    let end = put_byte(b'.', line, end);
    put_octet(addr / 16_777_216, line, end)
}

/// Writes the hop so that it ends at `end`, and returns where it starts.
#[inline(always)]
fn put_hop(hop: Option<Hop>, line: &mut [u8], end: usize) -> usize
    requires { (8 ≤ end) × (end ≤ length line.old) }
    ensures start { (result ≤ end) × (end ≤ result + 8) }
    ensures written { drop result line.new ≡ hop_text hop ++ drop end line.old }
{
    let Some(hop) = hop else {
        return put_byte(b'-', line, end);
    };
    let number = hop.number();
    if number < 256 {
        return put_octet(number, line, end);
    }
    write_digits(u64::from(number), line, end)
}

/// Writes the lines of answers so that they end where `block` does, from the last one back, and
/// returns where they start.
fn write_lines(addrs: &[u32], hops: &[Option<Hop>], block: &mut [u8]) -> usize
    requires same { length hops.now ≡ length addrs.now }
    requires room { LINE_ROOM * length addrs.now ≤ length block.old }
    ensures start { result ≤ length block.old }
    ensures written { drop result block.new ≡ answer_lines addrs.now hops.now }
{
    let mut start = block.len();
    let mut left = addrs.len();
    while left > 0 {
        left -= 1;
        let end = put_byte(b'\n', block, start);
        let end = put_hop(hops[left], block, end);
        let end = put_byte(b' ', block, end);
        start = put_address(addrs[left], block, end);
    }
    start
}

/// The text of answers: a line for each address with its hop, or `-` for a miss.
///
/// `AllocError` comes where room for the text is refused.
pub fn answers_text(
    alloc: Global,
    addrs: &[u32],
    hops: &[Option<Hop>],
) -> Result<Vec<u8>, AllocError>
    requires { length hops.now ≡ length addrs.now }
    ensures { IfOk result (λ v. v.items ≡ answer_lines addrs.now hops.now) }
{
    let mut text = Vec::with_capacity(alloc, addrs.len().saturating_mul(SHORTEST_LINE))?;
    let mut done = 0;
    while done < addrs.len() {
        let next = done + (addrs.len() - done).min(BLOCK_LINES);
        let mut block = [0; BLOCK_ROOM];
        let start = write_lines(&addrs[done..next], &hops[done..next], &mut block);
        text.extend_from_slice(&block[start..])?;
        done = next;
    }
    Ok(text)
}

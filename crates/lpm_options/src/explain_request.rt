//! What the parser's matches of `explain` ask for: its addresses are words of the command line.
ghost use Rattle.std.specs.Prelude.{◌≡◌, ◌≤◌, ⊤, ℕ, IfSome, IsNone, IfOk, IfErr, Some, [], List, codes, map};
ghost use Rattle.std.specs.List.{AllZip};
ghost use Rattle.clap.specs.Words.{Text, rows_of, found_of};
ghost use Rattle.route_text.specs.Fields.{IsAddress};
ghost use Rattle.lpm_options.specs.Requests.{AreSizes, Asks, HaveAddressWords, HasTwoStandardInputs};
ghost use Rattle.lpm_options.specs.Requests.{IsBadWord, IsInRange, IsNoAddress, IsRefusalBy};

use crate::requests::{number_of, path_of};
use crate::{CommandLine, Refused};
use clap::ArgMatches;
use lpm_limits::Config;
use std::alloc::Global;
use std::net::Ipv4Addr;

/// What the matches of `explain` ask for. The error is the first word that is no address, or want of memory.
pub(crate) fn explain_line<'a>(
    alloc: Global,
    found: &ArgMatches<'a>,
) -> Result<CommandLine<'a>, Refused<'a>>
    ensures asked { IfOk result (Asks (codes "explain") (rows_of (found_of found.now))) }
    ensures in_range { IfOk result IsInRange }
    ensures one_input { IfOk result (λ line. HasTwoStandardInputs line → ⊥) }
    ensures refused { IfErr result
        (IsRefusalBy [] (Some (codes "explain", rows_of (found_of found.now)))) }
{
    let Some(routes) = path_of(found, "ROUTES") else {
        return Err(Refused::NoCommand);
    };
    let Some(config) = sizes_of(found) else {
        return Err(Refused::NoCommand);
    };
    let Some(words) = words_of(found) else {
        return Err(Refused::NoCommand);
    };
    let addresses = addresses_of(alloc, words)?;
    Ok(CommandLine::Explain {
        routes,
        addresses,
        config,
    })
}

// The limits of a table that nothing changes.
fn sizes_of(found: &ArgMatches<'_>) -> Option<Config>
    ensures sizes { IfSome result (AreSizes (rows_of (found_of found.now))) }
    ensures none { IsNone result → (config : Config)
        → AreSizes (rows_of (found_of found.now)) config → ⊥ }
{
    let config = Config {
        rules: number_of(found, "rules")?,
        groups: number_of(found, "groups")?,
        ..Config::default()
    };
    match config.check() {
        Ok(()) => Some(config),
        Err(_) => None,
    }
}

// The words of the addresses.
fn words_of<'m, 'a>(found: &'m ArgMatches<'a>) -> Option<&'m [&'a str]>
    ensures words { IfSome result (λ words.
        HaveAddressWords (rows_of (found_of found.now)) (map (λ w. w.now) words.now)) }
    ensures none { IsNone result → (words : List Text)
        → HaveAddressWords (rows_of (found_of found.now)) words → ⊥ }
{
    found.get_strs("ADDRESS")
}

// The addresses of the words. The error is the first word that is none, or want of memory.
fn addresses_of<'a>(alloc: Global, words: &[&'a str]) -> Result<Vec<u32>, Refused<'a>>
    ensures addresses { IfOk result (λ v. AllZip IsAddress (map (λ w. w.now) words.now) v.items) }
    ensures refused { IfErr result (IsBadWord (map (λ w. w.now) words.now)) }
{
    let Ok(mut addresses) = Vec::with_capacity(alloc, words.len()) else {
        return Err(Refused::Memory);
    };
    for index in 0..words.len() {
        let word = words[index];
        let Some(address) = address_of(word) else {
            return Err(Refused::BadAddress {
                number: index + 1,
                word,
            });
        };
        if addresses.push(address).is_err() {
            return Err(Refused::Memory);
        }
    }
    Ok(addresses)
}

// The address that the word spells.
fn address_of(word: &str) -> Option<u32>
    ensures found { IfSome result (IsAddress word.now) }
    ensures missing { IsNone result → IsNoAddress word.now }
{
    match Ipv4Addr::parse_ascii(word.as_bytes()) {
        Ok(address) => Some(address.to_bits()),
        Err(_) => None,
    }
}

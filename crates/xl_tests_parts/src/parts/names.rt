//! Names with their numbers and texts.

use super::{next, number};
use std::alloc::{AllocError, Global};
use std::str::Split;
use xl_base::{Owner, Party, Protocol, Sequence};
use xl_names::{Name, Names, laws, owner_text, party_text, plain, put_hex_word, text_of};

fn half(bytes: &[u8]) -> [u8; 16] {
    match bytes {
        [byte, ..] => [*byte; 16],
        [] => [0; 16],
    }
}

/// The bytes of a word in hex; none if it has no bytes.
fn bytes(alloc: Global, word: &str) -> Sequence<u8> {
    match hex::decode(alloc, word) {
        Ok(bytes) => Sequence::from_vec(bytes),
        Err(_) => Sequence::new(alloc),
    }
}

/// A name of one of the seven kinds; of a lease each half is one byte over again.
fn named(alloc: Global, kind: u64, one: &str, svid: i32, two: &str) -> Name {
    let first = bytes(alloc, one);
    let second = bytes(alloc, two);
    match kind {
        0 => Name::NlmRange(first, svid, second),
        1 => Name::NlmShare(first, second),
        2 => Name::NlmParty(first),
        3 => Name::NfsRange(first, second),
        4 => Name::NfsShare(first, second),
        5 => Name::NfsParty(first),
        _ => Name::SmbLease(half(first.as_slice()), half(second.as_slice())),
    }
}

/// A name's kind, its bytes, its svid, more bytes, and its text.
pub(super) const TEXTS: &str = "\
0 61 7 - nlm:61/7/-
0 5a39 -2147483648 00ff nlm:5a39/-2147483648/00ff
1 61 0 - nlm:61/-
2 61 0 - nlm:61
3 63 0 6c nfs:63/6c
4 63 0 6f nfs:63/6f
5 - 0 - nfs:-
6 01 0 ab smb:01010101010101010101010101010101/abababababababababababababababab";

/// The name that a row begins with.
fn name_in(alloc: Global, words: &mut Split<'_, char>) -> Name {
    let kind = number(next(words));
    let one = next(words);
    let svid = next(words).parse().unwrap_or(9);
    let two = next(words);
    named(alloc, kind, one, svid, two)
}

fn is_text(text: Result<String, AllocError>, want: &str) -> bool {
    match text {
        Ok(text) => text.as_str() == want,
        Err(_) => false,
    }
}

pub(super) fn is_right(alloc: Global, row: &str) -> bool {
    let mut words = row.split(' ');
    let name = name_in(alloc, &mut words);
    is_text(text_of(alloc, &name), next(&mut words))
}

fn puts(alloc: Global, text: &mut String, bytes: &[u8]) -> bool {
    put_hex_word(alloc, text, bytes).is_ok()
}

fn has_words(alloc: Global, text: &mut String) -> bool {
    puts(alloc, text, &[0, 0xab, 0x10]) && puts(alloc, text, &[]) && text.as_str() == "00ab10-"
}

fn enters(names: &mut Names, name: &Name) -> bool {
    matches!(names.intern(name), Ok(0))
}

fn has_one(names: &Names, name: &Name) -> bool {
    names.len() == 1 && *names.name(0) == *name
}

fn is_owner(alloc: Global, names: &Names, owner: Owner, text: &str) -> bool {
    is_text(owner_text(alloc, names, owner), text)
}

fn is_party(alloc: Global, names: &Names, party: Party, text: &str) -> bool {
    is_text(party_text(alloc, names, party), text)
}

fn is_client(alloc: Global, names: &mut Names, client: &Name) -> bool {
    matches!(client.protocol(), Protocol::Nfs)
        && enters(names, client)
        && has_one(names, client)
        && is_owner(alloc, names, Owner::Name(Protocol::Nfs, 0), "nfs:63")
        && is_party(alloc, names, Party::Open(3), "smb:3")
}

fn are_owners(alloc: Global, names: &mut Names) -> bool {
    names.is_empty() && is_client(alloc, names, &named(alloc, 5, "63", 0, "-"))
}

/// One of 84 names, with few parts.
fn drawn(alloc: Global, draw: u64) -> Name {
    let one = if draw % 2 == 0 { "61" } else { "6263" };
    let two = if draw / 2 % 2 == 0 { "-" } else { "61" };
    let svid = match draw / 4 % 3 {
        0 => -1,
        1 => 0,
        _ => 7,
    };
    named(alloc, draw / 12 % 7, one, svid, two)
}

fn is_number(number: Option<u32>, place: Option<usize>) -> bool {
    match number {
        None => place.is_none(),
        Some(number) => place == Some(number as usize),
    }
}

/// Gives the drawn name to both, and tells whether they agree before and after.
fn agree(alloc: Global, names: &mut Names, list: &mut Vec<Name>, draw: u64) -> bool {
    let name = drawn(alloc, draw);
    enter_both(alloc, names, list, &name)
}

fn enter_both(alloc: Global, names: &mut Names, list: &mut Vec<Name>, name: &Name) -> bool {
    is_number(names.find(name), plain::number_of(name, list))
        && plain::enter(alloc, list, name).is_ok()
        && is_number(names.intern(name).ok(), plain::number_of(name, list))
        && names.len() == list.len()
}

fn are_same(names: &Names, list: &[Name]) -> bool {
    names.as_slice() == list && 30 < list.len()
}

/// 300 names come, most of them again and again, to the kept names and to the plain list.
fn all_agree(alloc: Global, names: &mut Names, list: &mut Vec<Name>) -> bool {
    let mut draw: u64 = 1;
    for _ in 0..300 {
        draw = draw.wrapping_mul(1103515245).wrapping_add(12345) % 2147483648;
        if !agree(alloc, names, list, draw / 65536) {
            return false;
        }
    }
    are_same(names, list)
}

#[test]
fn names_agree_with_plain_programs(rt: HostRuntime) {
    assert!(rt;
        all_agree(
            rt.alloc(),
            &mut Names::new(rt.alloc()),
            &mut Vec::new(rt.alloc())
        )
    );
    laws::equal_texts_are_of_equal_names();
}

#[test]
fn owners_have_texts(rt: HostRuntime) {
    assert!(rt; has_words(rt.alloc(), &mut String::new(rt.alloc())));
    assert!(rt; are_owners(rt.alloc(), &mut Names::new(rt.alloc())));
}

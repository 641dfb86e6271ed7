//! The texts of owners and parties. If memory runs out, a text to which one was to be added may hold a beginning of it.
ghost use Rattle.std.specs.Prelude.{◌≡◌, ◌++◌, codes, slice_get, OnOk, IfOk, string_bytes};
ghost use Rattle.std.specs.Fmt.{decimal, signed_decimal};
ghost use Rattle.xl_names.specs.Texts.{hex_word, tagged, tagged_two, name_text, open_text, text_at, owner_text, party_text};

use crate::name::Name;
use crate::names::Names;
use std::alloc::{AllocError, Global};
use std::fmt::Write;
use xl_base::{Owner, Party};

/// Adds bytes as a word: two lower case hex digits a byte, or a dash if there are no bytes. It fails only if memory runs
/// out; the text may hold a beginning of the word then (NAME-4).
pub fn put_hex_word(alloc: Global, text: &mut String, bytes: &[u8]) -> Result<(), AllocError>
    ensures { OnOk result (string_bytes text.new ≡ string_bytes text.old ++ hex_word bytes.now) }
{
    if bytes.is_empty() {
        text.push_str("-")?;
    } else {
        text.push_str(&hex::encode(alloc, bytes)?)?;
    }
    Ok(())
}

/// Adds a tag with one word.
fn put_tagged(alloc: Global, text: &mut String, tag: &str, one: &[u8]) -> Result<(), AllocError>
    ensures { OnOk result (string_bytes text.new ≡ string_bytes text.old ++ tagged tag.now one.now) }
{
    text.push_str(tag)?;
    put_hex_word(alloc, text, one)?;
    Ok(())
}

/// Adds a tag with two words.
fn put_tagged_two(
    alloc: Global,
    text: &mut String,
    tag: &str,
    one: &[u8],
    two: &[u8],
) -> Result<(), AllocError>
    ensures { OnOk result (string_bytes text.new ≡ string_bytes text.old ++ tagged_two tag.now one.now two.now) }
{
    put_tagged(alloc, text, tag, one)?;
    text.push_str("/")?;
    put_hex_word(alloc, text, two)?;
    Ok(())
}

/// Adds the text of a name: `nlm:CALLER/SVID/OH` of the owner of NLM ranges, `nlm:CALLER/OH` of shares, `nlm:CALLER` of
/// a client; `nfs:CLIENT/OWNER` of an NFSv4 owner, `nfs:CLIENT` of a client; `smb:GUID/KEY` of a lease. SVID is
/// decimal, with a minus sign if it is negative; the other words are lower case hex, or a dash if there are no bytes.
#[tactic(auto, unfolding(crate::specs::Texts::name_text))]
pub fn put_name(alloc: Global, text: &mut String, name: &Name) -> Result<(), AllocError>
    ensures { OnOk result (string_bytes text.new ≡ string_bytes text.old ++ name_text name.now) }
{
    match name {
        Name::NlmRange(caller, svid, oh) => {
            put_tagged(alloc, text, "nlm:", caller.as_slice())?;
            write!(text, "/{svid}/")?;
            put_hex_word(alloc, text, oh.as_slice())?;
        }
        Name::NlmShare(caller, oh) => {
            put_tagged_two(alloc, text, "nlm:", caller.as_slice(), oh.as_slice())?;
        }
        Name::NlmParty(caller) => put_tagged(alloc, text, "nlm:", caller.as_slice())?,
        Name::NfsRange(client, owner) | Name::NfsShare(client, owner) => {
            put_tagged_two(alloc, text, "nfs:", client.as_slice(), owner.as_slice())?;
        }
        Name::NfsParty(client) => put_tagged(alloc, text, "nfs:", client.as_slice())?,
        Name::SmbLease(guid, key) => put_tagged_two(alloc, text, "smb:", guid, key)?,
    }
    Ok(())
}

/// The text of a name, as `put_name` adds it.
pub fn text_of(alloc: Global, name: &Name) -> Result<String, AllocError>
    ensures { IfOk result (λ text. string_bytes text ≡ name_text name.now) }
{
    let mut text = String::new(alloc);
    put_name(alloc, &mut text, name)?;
    Ok(text)
}

/// Adds the text of an SMB open: `smb:` and its number.
pub fn put_open(text: &mut String, number: u32) -> Result<(), AllocError>
    ensures { OnOk result (string_bytes text.new ≡ string_bytes text.old ++ open_text number) }
{
    write!(text, "smb:{number}")?;
    Ok(())
}

/// Adds the text of the name of this number, if it is kept.
fn put_kept(alloc: Global, text: &mut String, names: &Names, number: u32) -> Result<(), AllocError>
    ensures { OnOk result (string_bytes text.new ≡ string_bytes text.old ++ text_at (slice_get names.now number)) }
{
    if let Some(name) = names.as_slice().get(number as usize) {
        put_name(alloc, text, name)?;
    }
    Ok(())
}

/// Adds the text of the owner of a share or of ranges; of one whose name isn't kept nothing.
pub fn put_owner(
    alloc: Global,
    text: &mut String,
    names: &Names,
    owner: Owner,
) -> Result<(), AllocError>
    ensures { OnOk result (string_bytes text.new ≡ string_bytes text.old ++ owner_text names.now owner) }
{
    match owner {
        Owner::Name(_, number) => put_kept(alloc, text, names, number),
        Owner::Open(number) => put_open(text, number),
    }
}

/// Adds the text of a party; of one whose name isn't kept nothing.
pub fn put_party(
    alloc: Global,
    text: &mut String,
    names: &Names,
    party: Party,
) -> Result<(), AllocError>
    ensures { OnOk result (string_bytes text.new ≡ string_bytes text.old ++ party_text names.now party) }
{
    match party {
        Party::Name(_, number) => put_kept(alloc, text, names, number),
        Party::Open(number) => put_open(text, number),
    }
}

/// The text of the owner of a share or of ranges, as `put_owner` adds it.
pub fn owner_text(alloc: Global, names: &Names, owner: Owner) -> Result<String, AllocError>
    ensures { IfOk result (λ text. string_bytes text ≡ owner_text names.now owner) }
{
    let mut text = String::new(alloc);
    put_owner(alloc, &mut text, names, owner)?;
    Ok(text)
}

/// The text of a party, as `put_party` adds it.
pub fn party_text(alloc: Global, names: &Names, party: Party) -> Result<String, AllocError>
    ensures { IfOk result (λ text. string_bytes text ≡ party_text names.now party) }
{
    let mut text = String::new(alloc);
    put_party(alloc, &mut text, names, party)?;
    Ok(text)
}

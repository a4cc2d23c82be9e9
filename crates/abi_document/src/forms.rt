//! Forms of JSON that documents are made of.

ghost use Rattle.std.specs.Prelude.{◌≡◌, ◌&&◌, IfOk, nat_le, map};
ghost use Rattle.std.specs.List.{list_all};
ghost use Rattle.std.specs.BTreeMap.{keys};
ghost use Rattle.serde_json.specs.Find.{as_array, as_bool};
ghost use Rattle.serde_json.specs.View.{view, items_view};
ghost use Rattle.abi_document.specs.Forms.{Tells, is_listed, all_listed, has_only, sole_member, under, pair_of, triple_of, is_name, name_of, bytes_of, long_of, byte_of, word_of};

use abi_num::OutOfMemory;
use abi_pack::Bytes;
use hex::FromHexError;
use serde_json::{Map, Value as Json};
use std::alloc::Global;

/// The longest name, in bytes.
const LONGEST_NAME: usize = 256;

/// Whether the tree is an object, each of whose keys is one of these names.
pub fn has_only(names: &[&str], json: &Json) -> bool
    ensures { result ≡ has_only (map (λ name. name.now) names.now) (view json.now) }
{
    match json.as_object() {
        Some(members) => keys_listed(names, members),
        None => false,
    }
}

/// Whether each key is one of these names.
fn keys_listed(names: &[&str], members: &Map<String, Json>) -> bool
    ensures { result ≡ all_listed (map (λ name. name.now) names.now) (keys members.now) }
{
    members.keys().all(|key| is_listed(names, key.as_str()))
}

/// Whether the key is one of these names.
fn is_listed(names: &[&str], key: &str) -> bool
    ensures { result ≡ is_listed (map (λ name. name.now) names.now) key.now }
{
    names.contains(&key)
}

/// The key and the content of an object with one key; `None` exactly where the tree is no such object.
pub fn sole_member(json: &Json) -> Option<(&str, &Json)>
    ensures { Tells (λ m. (m.0.now, view m.1.now)) (sole_member (view json.now)) result }
{
    let members = json.as_object()?;
    if members.len() != 1 {
        return None;
    }
    let (key, content) = members.iter().next()?;
    Some((key.as_str(), content))
}

/// The two of an array of two; `None` exactly where the tree is no such array.
pub fn pair_of(json: &Json) -> Option<(&Json, &Json)>
    ensures { Tells (λ pair. (view pair.0.now, view pair.1.now)) (pair_of (view json.now)) result }
{
    match json.as_array()?.as_slice() {
        [first, second] => Some((first, second)),
        _ => None,
    }
}

/// The three of an array of three; `None` exactly where the tree is no such array.
pub fn triple_of(json: &Json) -> Option<(&Json, &Json, &Json)>
    ensures { Tells (λ t. (view t.0.now, view t.1.now, view t.2.now))
        (triple_of (view json.now)) result }
{
    match json.as_array()?.as_slice() {
        [first, second, third] => Some((first, second, third)),
        _ => None,
    }
}

/// A name: at most 256 bytes from space to `~`. `None` exactly where the tree is none.
pub fn name_of(json: &Json) -> Option<&str>
    ensures { Tells (λ name. name.now) (name_of (view json.now)) result }
{
    let text = json.as_str()?;
    if is_name(text) { Some(text) } else { None }
}

/// Whether the text is at most 256 bytes from space to `~`.
fn is_name(text: &str) -> bool
    ensures { result ≡ is_name text.now }
{
    text.len() <= LONGEST_NAME && are_printable(text.as_bytes())
}

/// Whether each byte is one from space to `~`.
fn are_printable(text: &[u8]) -> bool
    ensures { result ≡ list_all (λ c. nat_le 32 c && nat_le c 126) text.now }
{
    text.iter().all(|byte| b' ' <= *byte && *byte <= b'~')
}

/// The bytes that a text of pairs of hexadecimal digits spells; `None` exactly where the tree is no such text.
pub fn bytes_of(alloc: Global, json: &Json) -> Result<Option<Bytes>, OutOfMemory>
    ensures { IfOk result (λ bytes. bytes ≡ bytes_of (view json.now)) }
{
    let Some(text) = json.as_str() else {
        return Ok(None);
    };
    match hex::decode(alloc, text.as_bytes()) {
        Ok(bytes) => Ok(Some(Bytes::from(bytes))),
        Err(FromHexError::OutOfMemory) => Err(OutOfMemory),
        Err(_) => Ok(None),
    }
}

/// A JSON integer of 64 bits without sign; `None` exactly where the tree is none.
pub fn long_of(json: &Json) -> Option<u64>
    ensures { result ≡ long_of (view json.now) }
{
    json.as_u64()
}

/// A JSON integer from 0 to 255; `None` exactly where the tree is none.
pub fn byte_of(json: &Json) -> Option<u8>
    ensures { result ≡ byte_of (view json.now) }
{
    u8::try_from(long_of(json)?).ok()
}

/// A JSON integer of 32 bits without sign; `None` exactly where the tree is none.
pub fn word_of(json: &Json) -> Option<u32>
    ensures { result ≡ word_of (view json.now) }
{
    u32::try_from(long_of(json)?).ok()
}

/// The name under a key of an object; `None` exactly where there is none.
pub fn name_under<'j>(key: &str, json: &'j Json) -> Option<&'j str>
    ensures { Tells (λ name. name.now) (under key.now name_of (view json.now)) result }
{
    name_of(json.get(key)?)
}

/// The items of the array under a key of an object; `None` exactly where there is none.
pub fn items_under<'j>(key: &str, json: &'j Json) -> Option<&'j [Json]>
    ensures { Tells (λ a. items_view a.now) (under key.now as_array (view json.now)) result }
{
    Some(json.get(key)?.as_array()?.as_slice())
}

/// The integer of 64 bits without sign under a key of an object; `None` exactly where there is none.
pub fn long_under(key: &str, json: &Json) -> Option<u64>
    ensures { result ≡ under key.now long_of (view json.now) }
{
    long_of(json.get(key)?)
}

/// The truth value under a key of an object; `None` exactly where there is none.
pub fn truth_under(key: &str, json: &Json) -> Option<bool>
    ensures { result ≡ under key.now as_bool (view json.now) }
{
    json.get(key)?.as_bool()
}

// A list of parameters: it is taken, or breaks a rule (document 01's number 1).
#![tactic(auto)]

ghost use Rattle.std.specs.Prelude.{◌≡◌, true, ◌*◌, length};
ghost use Rattle.image.specs.Tables.{Whole};
ghost use Rattle.params_spec.specs.Calls.{param_count, params_of, params_named, list_formed, none_binds_receiver, receiver_apart, list_holds};

use image::{BindingId, PatId, Tables};
use param_plain::binds_receiver;

// Each parameter of a list names a pattern and a type.
fn params_named(image: &[u8], tables: Tables, words: &[u16]) -> bool
    requires { Whole image.now tables × (2 * param_count words.now ≡ length words.now) }
    ensures { result ≡ params_named image.now (params_of words.now) }
{
    for i in 0..words.len() / 2 {
        if tables.patterns.count <= words[2 * i] {
            return false;
        }
        if tables.types.count <= words[2 * i + 1] {
            return false;
        }
    }
    true
}

// A list has at most 64 parameters, of two words each, which name something.
fn list_formed(image: &[u8], tables: Tables, words: &[u16]) -> bool
    requires { Whole image.now tables }
    ensures { result ≡ list_formed image.now words.now }
{
    let count = words.len() / 2;
    if 64 < count {
        return false;
    }
    if 2 * count != words.len() {
        return false;
    }
    params_named(image, tables, words)
}

// No parameter of a list is itself a plain Bind of b.
fn none_binds_receiver(image: &[u8], tables: Tables, b: BindingId, words: &[u16]) -> bool
    requires { Whole image.now tables × (list_formed image.now words.now ≡ true) }
    ensures { result ≡ none_binds_receiver image.now b.0 (params_of words.now) }
{
    for i in 0..words.len() / 2 {
        let p = words[2 * i];
        if binds_receiver(image, tables, b, PatId(p)) {
            return false;
        }
    }
    true
}

// No parameter of a list binds self again.
fn receiver_apart(
    image: &[u8],
    tables: Tables,
    receiver: Option<(BindingId, u16)>,
    words: &[u16],
) -> bool
    requires { Whole image.now tables × (list_formed image.now words.now ≡ true) }
    ensures { result ≡ receiver_apart image.now receiver (params_of words.now) }
{
    match receiver {
        None => true,
        Some((b, _)) => none_binds_receiver(image, tables, b, words),
    }
}

// A list that is taken.
pub fn list_holds(
    image: &[u8],
    tables: Tables,
    receiver: Option<(BindingId, u16)>,
    words: &[u16],
) -> bool
    requires { Whole image.now tables }
    ensures { result ≡ list_holds image.now receiver words.now }
{
    if !list_formed(image, tables, words) {
        return false;
    }
    receiver_apart(image, tables, receiver, words)
}

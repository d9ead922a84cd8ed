// What a call on parameters starts from: the words of its self, the bindings' locals, and the body.
#![tactic(auto)]

ghost use Rattle.std.specs.Prelude.{◌≤◌, ◌≡◌, length, replicate};
ghost use Rattle.state.specs.State.{encode, counts_of};
ghost use Rattle.params_start.specs.Started.{start_state, receiver, call_words, many_of};
ghost use Rattle.body_tables.specs.Layout.{body_of};

use body_tables::BODY_WORDS;
use image::BindingId;
use mir::Counts;
use row_tables::clear_from;

// What the first four words of a call say: how many scopes are open, and self.
#[derive(Clone, Copy)]
pub struct CallWords {
    pub opened: u16,
    pub receiver: Option<(BindingId, u16)>,
}

// Self, by a word that is 0 for none, its binding and its type.
fn receiver_of(own: u16, binding: BindingId, ty: u16) -> Option<(BindingId, u16)>
    ensures { result ≡ receiver own binding.0 ty }
{
    if own == 0 {
        return None;
    }
    Some((binding, ty))
}

// The words for the opened scopes, for self or none, and of self's binding and type.
pub fn call_words(words: &[u16]) -> CallWords
    requires { 4 ≤ length words.now }
    ensures { result ≡ call_words words.now }
{
    CallWords {
        opened: words[0],
        receiver: receiver_of(words[1], BindingId(words[2]), words[3]),
    }
}

// How many locals self and a list of so many words have; a list of more than 64 parameters is not taken.
pub fn many_of(receiver: Option<(BindingId, u16)>, size: usize) -> u16
    ensures { result ≡ many_of receiver size }
{
    if size > 128 {
        return 0;
    }
    let count = (size / 2) as u16;
    match receiver {
        None => count,
        Some(_) => count + 1,
    }
}

// No binding has a local.
pub fn unbind(bindings: &mut [u16])
    requires { length bindings.old ≡ 256 }
    ensures { bindings.new ≡ replicate 256 65535 }
{
    bindings.fill(65535);
}

// Block 0 is open, there is no local, and a scope is open or none.
pub fn start_params(body: &mut [u16; BODY_WORDS], opened: u16) -> Counts
    ensures { (result ≡ counts_of (start_state opened)) × (body_of body.new ≡ encode (start_state opened)) }
{
    clear_from(body, 0);
    if opened == 0 {
        return Counts {
            blocks: 1,
            statements: 0,
            locals: 0,
            scopes: 0,
            entries: 0,
        };
    }
    Counts {
        blocks: 1,
        statements: 0,
        locals: 0,
        scopes: 1,
        entries: 0,
    }
}

//! What the values of options say.
ghost use Rattle.std.specs.Prelude.{◌≡◌, ◌<◌, IfSome};
ghost use Rattle.tmr_words.specs.FileWords.{read_words as read_texts};
ghost use Rattle.tmr_words.specs.Line.{positive_number, version_number, form_named, said};

use tmr_base::read_u32;
use triplicate::Form;

/// The number that an option's value writes, from 1.
#[tactic(auto, unfolding(crate::specs::Line::positive_number))]
fn read_positive(value: &[u8]) -> Option<u32>
    ensures range { IfSome result (λ number. 0 < number) }
    ensures number { result ≡ positive_number value.now }
{
    match read_u32(value) {
        None => None,
        Some(number) => { if number == 0 { None } else { Some(number) } }
    }
}

/// The version that an option's value writes.
#[tactic(auto, unfolding(crate::specs::Line::version_number))]
fn read_version(value: &[u8]) -> Option<u8>
    ensures range { IfSome result (λ version. (0 < version) × (version < 3)) }
    ensures number { result ≡ version_number value.now }
{
    if value == b"1".as_slice() {
        return Some(1);
    }
    if value == b"2".as_slice() {
        return Some(2);
    }
    None
}

/// The form that an option's value names.
#[tactic(auto, unfolding(crate::specs::Line::form_named))]
fn read_form(value: &[u8]) -> Option<Form>
    ensures { result ≡ form_named value.now }
{
    if value == b"plain".as_slice() {
        return Some(Form::Plain);
    }
    if value == b"lean".as_slice() {
        return Some(Form::Lean);
    }
    None
}

/// What an option says that is given at most once; where it is not given, this number.
pub fn said_number(default: u32, values: &[&[u8]]) -> Option<u32>
    requires { 0 < default }
    ensures range { IfSome result (λ number. 0 < number) }
    ensures said { result ≡ said positive_number default (read_texts values.now) }
{
    match values {
        [] => Some(default),
        [value] => read_positive(value),
        _ => None,
    }
}

/// The version that is said; without the option it is 1.
pub fn said_version(values: &[&[u8]]) -> Option<u8>
    ensures range { IfSome result (λ version. (0 < version) × (version < 3)) }
    ensures said { result ≡ said version_number 1 (read_texts values.now) }
{
    match values {
        [] => Some(1),
        [value] => read_version(value),
        _ => None,
    }
}

/// The form that is said; without the option it is the plain one.
pub fn said_form(values: &[&[u8]]) -> Option<Form>
    ensures { result ≡ said form_named Form.Plain (read_texts values.now) }
{
    match values {
        [] => Some(Form::Plain),
        [value] => read_form(value),
        _ => None,
    }
}

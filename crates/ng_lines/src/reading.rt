//! Reading the line of an item.
ghost use Rattle.std.specs.Prelude.{◌≡◌, ◌<◌, ◌^◌, ◌∷◌, ◌++◌, ℕ, ℤ, List, Bool, Some, IfSome, IsSomeAnd, MatchOption, codes};
ghost use Rattle.std.specs.Fmt.{decimal};
ghost use Rattle.ng_num.specs.Range.{IsCount};
ghost use Rattle.ng_num.specs.Printing.{number_text};
ghost use Rattle.ng_canon.specs.declared.item.AxisStep.{AxisStep};
ghost use Rattle.ng_canon.specs.declared.item.Item.{Item};
ghost use Rattle.ng_canon.specs.declared.item.Pulse.{Pulse};
ghost use Rattle.ng_canon.specs.declared.outputs.Outputs.{Outputs};
ghost use Rattle.ng_canon.specs.declared.outputs.Spindle.{Spindle};
ghost use Rattle.ng_lines.specs.Lines.{IsItem, item_line, pulse_line, spindle_text, step_text, truth_digit};
ghost use Rattle.ng_lines.specs.Parts.{HasNone, outputs_rest, pulse_onward, pulse_rest};

use crate::number::number_in;
use crate::whole::whole_in;
use ng_canon::{AxisStep, Item, Outputs, Pulse, Spindle};
use ng_num::Num;

/// The step at the beginning of a text, and what follows it and a blank.
#[inline(always)]
fn take_step(text: &[u8]) -> Option<(AxisStep, &[u8])>
    ensures found { IfSome result (λ r. text.now ≡ step_text r.0 ++ 32 ∷ r.1.now) }
    ensures only { (step : AxisStep) (more : List ℕ) → text.now ≡ step_text step ++ 32 ∷ more
        → IsSomeAnd result (λ r. (r.0 ≡ step) × (r.1.now ≡ more)) }
{
    match text {
        [b'0', b' ', after @ ..] => Some((AxisStep::Still, after)),
        [b'1', b' ', after @ ..] => Some((AxisStep::Forward, after)),
        [b'-', b'1', b' ', after @ ..] => Some((AxisStep::Backward, after)),
        _ => None,
    }
}

/// A pulse, of its line after the letter and a blank.
fn read_pulse(text: &[u8]) -> Option<Pulse>
    ensures found { IfSome result (λ p. text.now ≡ pulse_rest p) }
    ensures only { (p : Pulse) → p.period_us < 2 ^ 64 → text.now ≡ pulse_rest p → result ≡ Some p }
{
    let Some((x, text)) = take_step(text) else {
        return None;
    };
    let Some((y, text)) = take_step(text) else {
        return None;
    };
    let Some((z, text)) = take_step(text) else {
        return None;
    };
    match whole_in(text) {
        Some(period_us) => Some(Pulse { x, y, z, period_us }),
        None => None,
    }
}

/// The period at the end of a pulse's line, and what follows its newline.
#[inline(always)]
fn take_period(text: &[u8]) -> Option<(u64, &[u8])>
    ensures found { IfSome result (λ r. text.now ≡ decimal r.0 ++ 10 ∷ r.1.now) }
    ensures only { (period : ℕ) (more : List ℕ) → period < 2 ^ 64 → text.now ≡ decimal period ++ 10 ∷ more
        → IsSomeAnd result (λ r. (r.0 ≡ period) × (r.1.now ≡ more)) }
{
    let Some((front, after)) = split_at_byte(text, b'\n') else {
        return None;
    };
    match whole_in(front) {
        Some(period) => Some((period, after)),
        None => None,
    }
}

/// A pulse, of the text of its line after the letter and a blank, and what follows the line.
#[inline(always)]
fn take_steps(text: &[u8]) -> Option<(Pulse, &[u8])>
    ensures found { IfSome result (λ r. text.now ≡ pulse_onward r.0 r.1.now) }
    ensures only { (p : Pulse) (more : List ℕ) → p.period_us < 2 ^ 64 → text.now ≡ pulse_onward p more
        → IsSomeAnd result (λ r. (r.0 ≡ p) × (r.1.now ≡ more)) }
{
    let Some((x, text)) = take_step(text) else {
        return None;
    };
    let Some((y, text)) = take_step(text) else {
        return None;
    };
    let Some((z, text)) = take_step(text) else {
        return None;
    };
    match take_period(text) {
        Some((period_us, after)) => Some((Pulse { x, y, z, period_us }, after)),
        None => None,
    }
}

/// The pulse whose line a text begins with, and what follows the line (own). `None` exactly if the text begins with no
/// pulse's line: it may be that another item's begins it, or that more has to come.
#[inline(always)]
pub fn take_pulse(text: &[u8]) -> Option<(Pulse, &[u8])>
    ensures found { IfSome result (λ r. text.now ≡ pulse_line r.0 ++ r.1.now) }
    ensures only { (p : Pulse) (more : List ℕ) → p.period_us < 2 ^ 64 → text.now ≡ pulse_line p ++ more
        → IsSomeAnd result (λ r. (r.0 ≡ p) × (r.1.now ≡ more)) }
{
    match text {
        [b'P', b' ', steps @ ..] => take_steps(steps),
        _ => None,
    }
}

/// How the spindle turns, and what follows that and a blank.
fn take_spindle(text: &[u8]) -> Option<(Spindle, &[u8])>
    ensures found { IfSome result (λ r. text.now ≡ spindle_text r.0 ++ 32 ∷ r.1.now) }
    ensures only { (spindle : Spindle) (more : List ℕ) → text.now ≡ spindle_text spindle ++ 32 ∷ more
        → IsSomeAnd result (λ r. (r.0 ≡ spindle) × (r.1.now ≡ more)) }
{
    match text {
        [b'0', b' ', after @ ..] => Some((Spindle::Stopped, after)),
        [b'1', b' ', after @ ..] => Some((Spindle::Clockwise, after)),
        [b'2', b' ', after @ ..] => Some((Spindle::Counterclockwise, after)),
        _ => None,
    }
}

/// The truth value at the beginning of a text, and what follows it and a blank.
fn take_truth(text: &[u8]) -> Option<(bool, &[u8])>
    ensures found { IfSome result (λ r. text.now ≡ truth_digit r.0 ∷ 32 ∷ r.1.now) }
    ensures only { (truth : Bool) (more : List ℕ) → text.now ≡ truth_digit truth ∷ 32 ∷ more
        → IsSomeAnd result (λ r. (r.0 ≡ truth) × (r.1.now ≡ more)) }
{
    match text {
        [b'0', b' ', after @ ..] => Some((false, after)),
        [b'1', b' ', after @ ..] => Some((true, after)),
        _ => None,
    }
}

/// What is before the first such byte, and what is after it.
#[inline(always)]
fn split_at_byte(text: &[u8], byte: u8) -> Option<(&[u8], &[u8])>
    ensures { MatchOption result (HasNone byte text.now)
        (λ r. HasNone byte r.0.now × (text.now ≡ r.0.now ++ byte ∷ r.1.now)) }
{
    for (at, next) in text.iter().enumerate() {
        if *next == byte {
            return Some((&text[..at], &text[at + 1..]));
        }
    }
    None
}

/// The number at the beginning of a text, and what follows it and a blank.
fn take_number(text: &[u8]) -> Option<(Num, &[u8])>
    ensures found { IfSome result (λ r. text.now ≡ number_text r.0 ++ 32 ∷ r.1.now) }
    ensures only { (number : ℤ) (more : List ℕ) → IsCount number → text.now ≡ number_text number ++ 32 ∷ more
        → IsSomeAnd result (λ r. (r.0 ≡ number) × (r.1.now ≡ more)) }
{
    let Some((front, after)) = split_at_byte(text, b' ') else {
        return None;
    };
    match number_in(front) {
        Some(number) => Some((number, after)),
        None => None,
    }
}

/// A slot.
fn slot_in(text: &[u8]) -> Option<u8>
    ensures found { IfSome result (λ slot. decimal slot ≡ text.now) }
    ensures only { (slot : ℕ) → slot < 2 ^ 8 → decimal slot ≡ text.now → result ≡ Some slot }
{
    match whole_in(text) {
        Some(slot) if slot < 256 => Some(slot as u8),
        _ => None,
    }
}

/// The slot at the beginning of a text, and what follows it and a blank.
fn take_slot(text: &[u8]) -> Option<(u8, &[u8])>
    ensures found { IfSome result (λ r. text.now ≡ decimal r.0 ++ 32 ∷ r.1.now) }
    ensures only { (slot : ℕ) (more : List ℕ) → slot < 2 ^ 8 → text.now ≡ decimal slot ++ 32 ∷ more
        → IsSomeAnd result (λ r. (r.0 ≡ slot) × (r.1.now ≡ more)) }
{
    let Some((front, after)) = split_at_byte(text, b' ') else {
        return None;
    };
    match slot_in(front) {
        Some(slot) => Some((slot, after)),
        None => None,
    }
}

/// All outputs, of their line after the letter and a blank.
fn read_outputs(text: &[u8]) -> Option<Outputs>
    ensures found { IfSome result (λ o. text.now ≡ outputs_rest o) }
    ensures only { (o : Outputs) → IsItem (Item.Switch o) → text.now ≡ outputs_rest o → result ≡ Some o }
{
    let Some((spindle, text)) = take_spindle(text) else {
        return None;
    };
    let Some((speed, text)) = take_number(text) else {
        return None;
    };
    let Some((mist, text)) = take_truth(text) else {
        return None;
    };
    let Some((flood, text)) = take_truth(text) else {
        return None;
    };
    let Some((selected_slot, text)) = take_slot(text) else {
        return None;
    };
    match slot_in(text) {
        Some(spindle_slot) => Some(Outputs {
            spindle,
            speed,
            mist,
            flood,
            selected_slot,
            spindle_slot,
        }),
        None => None,
    }
}

/// The item of a pulse's line, after the letter and a blank.
#[inline(always)]
fn read_pulse_item(text: &[u8]) -> Option<Item>
    ensures found { IfSome result (λ item. item_line item ≡ 80 ∷ 32 ∷ text.now ++ codes "\n") }
    ensures range { IfSome result IsItem }
    ensures only { (item : Item) → IsItem item → item_line item ≡ 80 ∷ 32 ∷ text.now ++ codes "\n" → result ≡ Some item }
{
    match read_pulse(text) {
        Some(pulse) => Some(Item::Pulse(pulse)),
        None => None,
    }
}

/// The item of a dwell's line, after the letter and a blank.
fn read_dwell(text: &[u8]) -> Option<Item>
    ensures found { IfSome result (λ item. item_line item ≡ 68 ∷ 32 ∷ text.now ++ codes "\n") }
    ensures range { IfSome result IsItem }
    ensures only { (item : Item) → IsItem item → item_line item ≡ 68 ∷ 32 ∷ text.now ++ codes "\n" → result ≡ Some item }
{
    match whole_in(text) {
        Some(us) => Some(Item::Dwell { us }),
        None => None,
    }
}

/// The item of a line of all outputs, after the letter and a blank.
fn read_switch(text: &[u8]) -> Option<Item>
    ensures found { IfSome result (λ item. item_line item ≡ 83 ∷ 32 ∷ text.now ++ codes "\n") }
    ensures range { IfSome result IsItem }
    ensures only { (item : Item) → IsItem item → item_line item ≡ 83 ∷ 32 ∷ text.now ++ codes "\n" → result ≡ Some item }
{
    match read_outputs(text) {
        Some(outputs) => Some(Item::Switch(outputs)),
        None => None,
    }
}

/// The item whose line this is, without its newline (own). `None` exactly if it is that of no item: a number with a
/// leading zero, another blank, a carriage return or a number beyond its range makes it another text.
pub fn read_item(line: &[u8]) -> Option<Item>
    ensures found { IfSome result (λ item. item_line item ≡ line.now ++ codes "\n") }
    ensures range { IfSome result IsItem }
    ensures only { (item : Item) → IsItem item → item_line item ≡ line.now ++ codes "\n" → result ≡ Some item }
{
    match line {
        [b'P', b' ', text @ ..] => read_pulse_item(text),
        [b'D', b' ', text @ ..] => read_dwell(text),
        [b'S', b' ', text @ ..] => read_switch(text),
        _ => None,
    }
}

//! How what stands before the inputs of a function pointer is read.
ghost use Rattle.std.specs.Prelude.{◌≡◌, ◌<◌, ◌≤◌, ◌↔◌, IfOk, IfErr, OnOk};
ghost use Rattle.text_reading.specs.Errors.{LiesIn};
ghost use Rattle.text_reading.specs.Words.{StandsAt};
ghost use Rattle.text_reading.specs.Signs.{abi_signs, behind_safety, StandFrom};

use crate::reading::error::{Expected, ReadError};
use crate::reading::reader::Reader;
use crate::reading::signs::Sign;
use crate::reading::words::WordKind;
use term_enums::{ExternAbi, Safety};

// Whether a function pointer begins with that word, behind its binder.
fn begins_pointer(word: Option<WordKind>) -> bool {
    matches!(
        word,
        Some(WordKind::Sign(Sign::Fn | Sign::Unsafe | Sign::Extern))
    )
}

// Whether the binder that is next is a function pointer's, as what stands behind its list begins one.
pub(super) fn is_pointer_binder_next(reader: &Reader) -> bool {
    if !matches!(reader.peek(), Some(WordKind::Sign(Sign::For))) {
        return false;
    }
    for number in reader.at..reader.words.len() {
        if matches!(reader.kind_at(number), Some(WordKind::Sign(Sign::Greater))) {
            return begins_pointer(reader.kind_at(number.saturating_add(1)));
        }
    }
    false
}

// Reads whether a function pointer may be called from safe code, behind its binder.
pub(super) fn read_safety(reader: &mut Reader) -> Safety
    ensures safety { (result ≡ Safety.Unsafe) ↔ StandsAt reader.old.words.items reader.old.at Sign.Unsafe }
    ensures over { reader.new.at ≡ behind_safety reader.old.at result }
    ensures words { reader.new.words ≡ reader.old.words }
    ensures tree { reader.new.tree ≡ reader.old.tree }
    ensures later { reader.old.at ≤ reader.new.at }
{
    if reader.accept(Sign::Unsafe) {
        Safety::Unsafe
    } else {
        Safety::Safe
    }
}

// Goes over the words right before the inputs of a function pointer.
fn expect_inputs(reader: &mut Reader) -> Result<(), ReadError>
    ensures there { OnOk result (StandFrom reader.old.words.items reader.old.at (abi_signs ExternAbi.Rust)) }
    ensures words { reader.new.words ≡ reader.old.words }
    ensures tree { reader.new.tree ≡ reader.old.tree }
    ensures later { reader.old.at ≤ reader.new.at }
    ensures over { OnOk result (reader.old.at < reader.new.at) }
    ensures wrong { IfErr result (LiesIn reader.old.tree.text_len) }
{
    reader.expect(Sign::Fn)?;
    reader.expect(Sign::LeftParen)
}

// Reads how a function pointer is called, up to its inputs.
pub(super) fn read_abi(reader: &mut Reader) -> Result<ExternAbi, ReadError>
    ensures abi { IfOk result (λ a. StandFrom reader.old.words.items reader.old.at (abi_signs a)) }
    ensures words { reader.new.words ≡ reader.old.words }
    ensures tree { reader.new.tree ≡ reader.old.tree }
    ensures later { reader.old.at ≤ reader.new.at }
    ensures over { OnOk result (reader.old.at < reader.new.at) }
    ensures wrong { IfErr result (LiesIn reader.old.tree.text_len) }
{
    if !reader.accept(Sign::Extern) {
        expect_inputs(reader)?;
        return Ok(ExternAbi::Rust);
    }
    if reader.accept(Sign::AbiC) {
        expect_inputs(reader)?;
        return Ok(ExternAbi::C);
    }
    if reader.accept(Sign::AbiSystem) {
        expect_inputs(reader)?;
        return Ok(ExternAbi::System);
    }
    Err(reader.unexpected(Expected::Either(Sign::AbiC, Sign::AbiSystem)))
}

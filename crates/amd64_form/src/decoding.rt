//! From bytes to the instruction at their beginning.

ghost use Rattle.std.specs.Prelude.{◌≡◌, ◌↔◌, ℕ, List, length, drop, ◌++◌, IfOk, Ok};
ghost use Rattle.amd64_form.specs.Inst.{IsInst};
ghost use Rattle.amd64_form.specs.declared.inst.Inst.{Inst};
ghost use Rattle.amd64_form.specs.Encoding.{encoding, BeginsWithInst, IsPartOfInst};
ghost use Rattle.amd64_form.specs.Form.{reading};

use crate::form::{FORMS, Fit, Form};
use crate::inst::Inst;

/// Why no instruction is read.
#[derive(Clone, Copy, PartialEq, Eq, Debug)]
pub enum DecodeFault {
    /// The bytes break off inside an instruction: more bytes could make one.
    Short,

    /// No instruction stands at the beginning, and none would whatever came after the bytes.
    Unknown,
}

/// Reads the instruction at the beginning of the bytes, and how many bytes it has. Bytes may follow it.
pub fn decode(bytes: &[u8]) -> Result<(Inst, usize), DecodeFault>
    // What is read stands there.
    ensures found { IfOk result (λ found. bytes.now ≡ encoding found.0 ++ drop found.1 bytes.now) }
    ensures length { IfOk result (λ found. found.1 ≡ length (encoding found.0)) }
    ensures ranges { IfOk result (λ found. IsInst found.0) }

    // What stands there is read.
    ensures only { (i : Inst) (rest : List ℕ) → IsInst i → bytes.now ≡ encoding i ++ rest → result ≡ Ok (i, length (encoding i)) }

    ensures short { (result ≡ Err DecodeFault.Short) ↔ IsPartOfInst bytes.now }
    ensures unknown { (result ≡ Err DecodeFault.Unknown) ↔ (¬ BeginsWithInst bytes.now × ¬ IsPartOfInst bytes.now) }
{
    read(&FORMS, bytes)
}

/// What the first of the forms that fits the bytes gives.
#[tactic(auto, using(crate::proofs::Fit::fit_length), unfolding(crate::specs::Form::reading))]
fn read(forms: &[Form], bytes: &[u8]) -> Result<(Inst, usize), DecodeFault>
    ensures { result ≡ reading forms.now bytes.now }
{
    for form in forms {
        match form.fit(bytes) {
            Fit::Whole => return Ok((form.inst(bytes), form.parts().len())),
            Fit::Prefix => return Err(DecodeFault::Short),
            Fit::Apart => {}
        }
    }
    Err(DecodeFault::Unknown)
}

/// No encoding is a prefix of another, and no two instructions share one. So what `encode` writes is
/// read again by `decode`, whatever follows it.
pub fn one_spelling()
    ensures { (i j : Inst) (x y : List ℕ) → IsInst i → IsInst j → encoding i ++ x ≡ encoding j ++ y → (i ≡ j) × (x ≡ y) }
{}

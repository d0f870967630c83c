// The atoms that a run makes itself.

ghost use Rattle.std.specs.Prelude.{◌≡◌, codes, IsTrue, IfOk};
ghost use Rattle.eval_values.specs.ShortTexts.{is_short};

use hipe_base::Memory;
use hipe_terms::Atom;
use std::alloc::Global;

/// The atoms that a run makes itself: Booleans, classes and reasons.
#[derive(Drop)]
pub struct Atoms {
    pub yes: Atom,
    pub no: Atom,
    pub error: Atom,
    pub exit: Atom,
    pub throw: Atom,
    pub caught_exit: Atom,
    pub badarith: Atom,
    pub badarg: Atom,
    pub system_limit: Atom,
    pub undef: Atom,
    pub case_clause: Atom,
    pub badfun: Atom,
    pub badarity: Atom,
    pub function_clause: Atom,
    ghost yes_is: { yes ≡ codes "true" },
    ghost no_is: { no ≡ codes "false" },
    ghost error_is: { error ≡ codes "error" },
    ghost exit_is: { exit ≡ codes "exit" },
    ghost throw_is: { throw ≡ codes "throw" },
    ghost caught_exit_is: { caught_exit ≡ codes "EXIT" },
    ghost badarith_is: { badarith ≡ codes "badarith" },
    ghost badarg_is: { badarg ≡ codes "badarg" },
    ghost system_limit_is: { system_limit ≡ codes "system_limit" },
    ghost undef_is: { undef ≡ codes "undef" },
    ghost case_clause_is: { case_clause ≡ codes "case_clause" },
    ghost badfun_is: { badfun ≡ codes "badfun" },
    ghost badarity_is: { badarity ≡ codes "badarity" },
    ghost function_clause_is: { function_clause ≡ codes "function_clause" },
}

impl Atoms {
    /// These atoms. An error where there is no memory for them.
    pub fn new(alloc: Global) -> Result<Atoms, Memory>
        ensures booleans { IfOk result (λ a. (a.yes ≡ codes "true") × (a.no ≡ codes "false")) }
        ensures classes { IfOk result (λ a. (a.error ≡ codes "error") × (a.exit ≡ codes "exit") × (a.throw ≡ codes "throw")) }
        ensures caught { IfOk result (λ a. a.caught_exit ≡ codes "EXIT") }
        ensures arguments { IfOk result (λ a. (a.badarith ≡ codes "badarith") × (a.badarg ≡ codes "badarg")) }
        ensures limit { IfOk result (λ a. a.system_limit ≡ codes "system_limit") }
        ensures functions { IfOk result (λ a. (a.undef ≡ codes "undef") × (a.badfun ≡ codes "badfun") × (a.badarity ≡ codes "badarity")) }
        ensures clauses { IfOk result (λ a. (a.case_clause ≡ codes "case_clause") × (a.function_clause ≡ codes "function_clause")) }
    {
        Ok(Atoms {
            yes: atom(alloc, "true")?,
            no: atom(alloc, "false")?,
            error: atom(alloc, "error")?,
            exit: atom(alloc, "exit")?,
            throw: atom(alloc, "throw")?,
            caught_exit: atom(alloc, "EXIT")?,
            badarith: atom(alloc, "badarith")?,
            badarg: atom(alloc, "badarg")?,
            system_limit: atom(alloc, "system_limit")?,
            undef: atom(alloc, "undef")?,
            case_clause: atom(alloc, "case_clause")?,
            badfun: atom(alloc, "badfun")?,
            badarity: atom(alloc, "badarity")?,
            function_clause: atom(alloc, "function_clause")?,
        })
    }
}

// The atom of a short text of ASCII.
fn atom(alloc: Global, text: &str) -> Result<Atom, Memory>
    requires { IsTrue (is_short text.now) }
    ensures { IfOk result (λ a. a ≡ text.now) }
{
    match Atom::new(String::from_str(alloc, text)?) {
        Ok(a) => Ok(a),
        Err(_) => unreachable!(),
    }
}

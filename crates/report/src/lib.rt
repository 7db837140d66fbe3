// The lines that programs print, and what each program does with the files of its folder.
#![tactic(auto)]

ghost use Rattle.std.specs.Prelude.{◌≡◌, IfOk, string_bytes};
ghost use Rattle.qdimacs.specs.Kept.{sealed_formula};
ghost use Rattle.report.specs.Lines.{formula_line, read_line};

use qdimacs::{Formula, Sealed};
use std::alloc::{AllocError, Global};
use std::{fs, io};

// The file that a formula is read from, in the current folder.
const FORMULA_FILE: &str = "formula.qdm";

// `read`, and how many variables, blocks, rows and literals the formula has.
fn accepted_line(heap: Global, formula: &Sealed) -> Result<String, AllocError>
    ensures { IfOk result (λ s. string_bytes s ≡ read_line (sealed_formula formula.now)) }
{
    let variables = formula.variables();
    let blocks = formula.blocks();
    let rows = formula.rows();
    let literals = formula.literals();
    format!(in heap; "read {variables} {blocks} {rows} {literals}")
}

// The line for a formula text: what was read, or why it is refused.
pub fn formula_line(heap: Global, text: &[u8]) -> Result<String, AllocError>
    ensures { IfOk result (λ s. string_bytes s ≡ formula_line text.now) }
{
    let mut formula = Formula::new();
    if let Err(refusal) = formula.read(text) {
        return refusal.to_string(heap);
    }
    match formula.sealed() {
        Some(sealed) => accepted_line(heap, &sealed),
        None => unreachable(),
    }
}

// The bytes of a file. A missing file counts as empty; any other failure is handed on.
pub fn contents(rt: &HostRuntime, path: &str) -> io::Result<Vec<u8>> {
    match fs::read(rt, path) {
        Err(e) if e.kind() == io::ErrorKind::NotFound => Ok(Vec::new(rt.alloc())),
        read => read,
    }
}

// Reads the formula file, and prints its line.
pub fn run_formula(rt: &HostRuntime) -> io::Result<()> {
    let text = contents(rt, FORMULA_FILE)?;
    rt.println(formula_line(rt.alloc(), text.as_slice())?)
}

#[cfg(test)]
mod tests {
    use super::*;
    use formula::letter::Letter;
    use std::test::Fail;

    const CLAUSES: &[u8] = b"p cnf 4 4 e 1 0 a 2 0 e 3 4 0 1 2 3 0 -1 -2 4 0 -3 0 -4 0";

    #[test]
    fn worked_formulas_are_read(rt: HostRuntime) -> Result<(), Fail> {
        let clauses = formula_line(rt.alloc(), CLAUSES)?;
        assert!(rt; clauses.as_str() == "read 4 3 4 8");
        let cubes = formula_line(rt.alloc(), b"p cnf 2 2 a 1 0 e 2 0 1 2 0 -1 -2 0")?;
        assert!(rt; cubes.as_str() == "read 2 2 2 4");
        let refused = formula_line(rt.alloc(), b"p cnf 2 1 e 1 0 2 0")?;
        assert!(rt; refused.as_str() == "refused 9 16");
        Ok(())
    }

    #[test]
    fn look_ups_of_a_sealed_formula(rt: HostRuntime) -> Result<(), Fail> {
        let mut formula = Formula::new();
        assert!(rt; formula.sealed().is_none());
        assert!(rt; formula.read(CLAUSES).is_ok());
        let sealed = formula.sealed().ok_or("sealed")?;
        assert_eq!(rt; sealed.level(2), 2);
        assert_eq!(rt; sealed.level(4), 3);
        assert_eq!(rt; sealed.level(5), 0);
        assert_eq!(rt; sealed.owner(2), Some(Letter::Universal));
        assert_eq!(rt; sealed.order_at(3), Some(4));
        assert_eq!(rt; sealed.rows(), 4);
        Ok(())
    }
}

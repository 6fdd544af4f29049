// Whether a sheet compares v with v: an assertion both of whose terms have all of v or a cut of it.
ghost use Rattle.std.specs.Prelude.{◌≡◌, ◌+◌, ◌≤◌, ◌<◌};
ghost use Rattle.paper.specs.Sheet.{sheet_of, of_table, part_at, assertion_at};
ghost use Rattle.sheet_contents.specs.Read.{as_run};
ghost use Rattle.alike.specs.Untold.{of_v, uses_v, compares_v, some_compares};

use sheet::Sheet;
use sheet_contents::{Part, Run};

// Whether part i is all of v or a cut of it.
fn of_v(sheet: &Sheet, i: usize) -> bool
    requires { i < sheet.now.parts.count }
    ensures { result ≡ of_v (of_table part_at sheet.now.bytes.now 3 i) }
{
    match sheet.part(i) {
        Part::Const(..) => false,
        Part::All | Part::Cut(..) => true,
    }
}

// Whether a term has such a part.
fn uses_v(sheet: &Sheet, r: Run) -> bool
    requires { r.first + r.count ≤ sheet.now.parts.count }
    ensures { result ≡ uses_v (sheet_of sheet.now.bytes.now) (as_run r) }
{
    (r.first..r.first + r.count).any(|i| of_v(sheet, i))
}

// Whether assertion i compares v with v.
fn compares_v(sheet: &Sheet, i: usize) -> bool
    requires { i < sheet.now.assertions.count }
    ensures { result ≡ compares_v (sheet_of sheet.now.bytes.now) (of_table assertion_at sheet.now.bytes.now 4 i) }
{
    let a = sheet.assertion(i);
    uses_v(sheet, a.term) && uses_v(sheet, sheet_contents::second_run(a.claim))
}

// Whether some assertion does.
pub fn some_compares(sheet: &Sheet) -> bool
    ensures { result ≡ some_compares (sheet_of sheet.now.bytes.now) }
{
    (0..sheet.assertions.count).any(|i| compares_v(sheet, i))
}

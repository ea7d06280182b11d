// Of an object that is refused by ROLE: is an index role to blame that is there, or is a role missing (document 02, Request 08)? Components are rows, as `formats` has them.
#![tactic(auto)]

ghost use Rattle.std.specs.Prelude.{◌≡◌, List, ◌<◌};
ghost use Rattle.meaning.specs.Format.{Part};
ghost use Rattle.formats.specs.Parts.{part_rows, role_name};
ghost use Rattle.badrules.specs.Blame as is;

use formats::{Filled, role_of};

// A component has the role with this code.
fn there(parts: &[u64], code: u64) -> bool
    requires { code < 8 }
    ensures { (cs : List Part) → parts.now ≡ part_rows cs → result ≡ is.there (role_name code) cs }
{
    match role_of(parts, code) {
        None => false,
        Some(_) => true,
    }
}

// A component has it and isn't plain u64.
fn odd(parts: &[u64], code: u64) -> bool
    requires { code < 8 }
    ensures { (cs : List Part) → parts.now ≡ part_rows cs → result ≡ is.odd (role_name code) cs }
{
    match role_of(parts, code) {
        None => false,
        Some(Filled { plain, .. }) => plain != 1,
    }
}

// Of sparse_csr, values being there: indices, or else indptr.
fn of_csr(parts: &[u64]) -> bool
    ensures { (cs : List Part) → parts.now ≡ part_rows cs → result ≡ is.of_csr cs }
{
    if odd(parts, 2) {
        return true;
    }
    if there(parts, 2) {
        return odd(parts, 3);
    }
    false
}

// Is an index role of this format to blame?
pub fn blames(format: u64, parts: &[u64]) -> bool
    ensures { (cs : List Part) → parts.now ≡ part_rows cs → result ≡ is.blames format cs }
{
    if there(parts, 1) {
        if format == 1 {
            return of_csr(parts);
        }
        if format == 2 {
            return odd(parts, 4);
        }
        return false;
    }
    false
}

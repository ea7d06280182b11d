// What a component is stored as: its role, by its key, and its code.
ghost use Rattle.std.specs.Prelude.{◌≡◌};
ghost use Rattle.table.specs.Stored.{RoleIs, StorageIs, stored_as};

// The code of the role that the key at the start of s names.
pub fn role(s: &[u8]) -> u64
    ensures { RoleIs s.now result }
{
    let Some(letters) = walk::text(&s[0..]) else {
        return 8;
    };
    let at = letters.at;
    let e = at + letters.size;
    types::role_code(&s[at..e])
}

// The storage of a component with this role, judged with this code. In layout 1.0 an index role is u64, whatever its object's dtype.
pub fn stored(layout: u64, format: u64, role: u64, code: u64) -> u64
    ensures { result ≡ stored_as layout format role code }
{
    if layout != 1 {
        return code;
    }
    if format == 1 {
        if role == 2 {
            return 8;
        }
        if role == 3 {
            return 8;
        }
        return code;
    }
    if format == 2 {
        if role == 4 {
            return 8;
        }
    }
    code
}

// The storage of a component whose key begins s, judged with this code. Only layout 1.0 asks for its role.
pub fn storage(layout: u64, format: u64, s: &[u8], code: u64) -> u64
    ensures { StorageIs layout format s.now code result }
{
    if layout == 1 {
        return stored(layout, format, role(s), code);
    }
    code
}

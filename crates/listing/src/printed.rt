// What the program prints: of a file, proved for any bytes, and of a path. What is lent always has room.
ghost use Rattle.std.specs.Prelude.{◌≡◌, ◌≤◌, ◌*◌, length};
ghost use Rattle.meaning.specs.Check.{pass};
ghost use Rattle.meaning.specs.Listing as is;
ghost use Rattle.panel.specs.ListedText.{told, text_after};
ghost use Rattle.listing.specs.Output as out;

use panel::Listed;

// The listing, the refusal or `too long`, into a lent text: 0 and its length; or ROOM and 0, and the text is as it was.
pub fn print(file: &[u8], text: &mut [u8]) -> Listed
    ensures answer { result ≡ told (pass (is.printed file.now)) (length text.old) }
    ensures written { text.new ≡ text_after (pass (is.printed file.now)) text.old }
    ensures within { out.IsPrefixLen result.length text.new }
{
    if file.len() > 65536 {
        return panel::words(b"too long\n", text);
    }
    let mut table = [0u64; 8192];
    let a = reader::into::read(file, &mut table);
    if a.number == 0 {
        return panel::list(file, &table, a.objects, a.components, text);
    }
    panel::refusal(a.number, a.object, a.component, text)
}

// The same into a text that has room for any: how many bytes it is.
pub fn whole(file: &[u8], text: &mut [u8]) -> usize
    requires { out.lent_text ≤ length text.old }
    ensures holds { out.Holds (is.printed file.now) text.new result }
    ensures within { out.IsPrefixLen result text.new }
{
    let listed = print(file, text);
    listed.length as usize
}

// A path with the listing's escapes: how many bytes it then has.
pub fn escaped(path: &[u8], text: &mut [u8]) -> usize
    requires { 3 * length path.now ≤ length text.old }
    ensures holds { out.Holds (is.shown_text path.now) text.new result }
    ensures within { out.IsPrefixLen result text.new }
{
    put::text(text, 0, path)
}

// The line of a path, likewise.
pub fn heading(path: &[u8], text: &mut [u8]) -> usize
    requires path_len_bound { length path.now ≤ out.lent_path }
    requires lent_heading_in_bounds { out.lent_heading ≤ length text.old }
    ensures holds { out.Holds (out.heading path.now) text.new result }
    ensures within { out.IsPrefixLen result text.new }
{
    let past = put::text(text, 0, path);
    put::word(text, past, b":\n")
}

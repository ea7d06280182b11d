// The file frame (document 01): magic at both ends, the manifest's size before the last, and where the manifest starts. In layout 1.0 the size stands last.
#![tactic(auto)]

ghost use Rattle.std.specs.Prelude.{◌≡◌, ◌+◌, ◌-◌, ◌≤◌, length, drop};
ghost use Rattle.meaning.specs.Text.{same};
ghost use Rattle.meaning.specs.Layouts.{layout_of};
ghost use Rattle.meaning.specs.Frame as meant;
ghost use Rattle.frame.specs.FrameAnswer as spec;

use numbers::Refusal;

// The manifest's start and size.
#[derive(Clone, Copy)]
pub struct Framed {
    pub start: usize,
    pub size: usize,
}

// How far before the end the size begins; eight bytes more is the least length of a file.
pub fn size_back(layout: u64) -> usize
    ensures { (result ≡ (layout_of layout).size_back) × (result + 8 ≡ (layout_of layout).least) × (result ≤ 16) × (8 ≤ result) }
{
    if layout == 1 {
        return 8;
    }
    16
}

// The file ends as it must: with the magic, or in layout 1.0 anyhow.
fn footed(layout: u64, file: &[u8]) -> bool
    requires { 16 ≤ length file.now }
    ensures { result ≡ same (layout_of layout).footer (drop (length file.now - length (layout_of layout).footer) file.now) }
{
    if layout == 1 {
        return true;
    }
    let last = file.len() - 8;
    text::is_magic(&file[last..])
}

// The frame of a file.
pub fn frame(layout: u64, file: &[u8]) -> Result<Framed, Refusal>
    ensures { meant.frame (layout_of layout) file.now ≡ spec.told result }
{
    let n = file.len();
    let back = size_back(layout);
    if n < back + 8 {
        return Err(Refusal::Short);
    }
    if !text::is_magic(&file[0..8]) {
        return Err(Refusal::Header);
    }
    if !footed(layout, &file[0..]) {
        return Err(Refusal::Footer);
    }
    let at = n - back;
    let size = text::little(&file[at..at + 8]);
    if numbers::MANIFEST_MOST < size {
        return Err(Refusal::Big);
    }
    if size == 0 {
        return Err(Refusal::Fit);
    }
    if ((at - 8) as u64) < size {
        return Err(Refusal::Fit);
    }
    Ok(Framed {
        start: at - size as usize,
        size: size as usize,
    })
}

// The panel's text of a file: its account first, which leaves the lent room as zeros, then its rows again, and the lines by them.
#![tactic(auto)]

ghost use Rattle.std.specs.Prelude.{◌≡◌, length, replicate};
ghost use Rattle.meaning.specs.Layouts.{layout_of};
ghost use Rattle.panel.specs.ListedText.{text_after};
ghost use Rattle.summary.specs.Panel as is;

// The verdict, or ROOM for either room; and the length of the text. All but the first three are 0 on refusal.
#[repr(C)]
#[derive(Clone, Copy)]
pub struct Panel {
    pub number: u64,
    pub object: u64,
    pub component: u64,
    pub length: u64,
}

// A file of this layout, lent whole, with room for its rows and for the text.
pub fn of_file(layout: u64, file: &[u8], work: &mut [u64], text: &mut [u8]) -> Panel
    ensures answer { result ≡ is.told (is.shown (layout_of layout) file.now (length work.old)) (length text.old) }
    ensures written { text.new ≡ text_after (is.shown (layout_of layout) file.now (length work.old)) text.old }
    ensures cleared { work.new ≡ replicate (length work.old) 0 }
{
    let b = account::of_file(layout, file, work);
    if b.number == 0 {
        let a = reader::into::read_as(layout, file, work);
        let t = panel::summary(
            file,
            work,
            a.objects,
            a.components,
            b.frame,
            b.manifest,
            b.inside,
            b.between,
            text,
        );
        account::clear(work);
        return Panel {
            number: t.number,
            object: 0,
            component: 0,
            length: t.length,
        };
    }
    Panel {
        number: b.number,
        object: b.object,
        component: b.component,
        length: 0,
    }
}

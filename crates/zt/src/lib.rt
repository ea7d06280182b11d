// The C interface: thin exported functions, nothing else.
#![tactic(auto)]

ghost use Rattle.std.specs.Prelude.{◌≡◌, length, replicate};
ghost use Rattle.meaning.specs.Check.{pass};
ghost use Rattle.meaning.specs.Frame.{reading};
ghost use Rattle.meaning.specs.Rows.{read_into, table_after};
ghost use Rattle.meaning.specs.View.{viewed};
ghost use Rattle.meaning.specs.Write.{written, written_by};
ghost use Rattle.meaning.specs.Layouts.{current, layout_of};
ghost use Rattle.reader.specs.Verdict.{verdict};
ghost use Rattle.reader.specs.Answer.{answered};
ghost use Rattle.view.specs.Extents as extent;
ghost use Rattle.finding.specs.Table.{found};
ghost use Rattle.panel.specs.Lines.{listed};
ghost use Rattle.panel.specs.ListedText as listing;
ghost use Rattle.account.specs.Account.{accounted};
ghost use Rattle.summary.specs.Panel as panelled;
ghost use Rattle.comparing.specs.Comparison as comparison;
ghost use Rattle.merging.specs.Merge as merging;
ghost use Rattle.merger.specs.MergedFile as joining;
ghost use Rattle.rescuing.specs.Rescue as rescuing;
ghost use Rattle.rescuer.specs.RescuedFile as rescued;
ghost use Rattle.explained.specs.Explain as why;
ghost use Rattle.explained.specs.Sentence as line;
ghost use Rattle.sentence.specs.Given.{explanation};
ghost use Rattle.engines.specs.Calls as calls;
ghost use Rattle.sharing.specs.EngineAnswers as said;
ghost use Rattle.writer.specs.WriterAnswer.{Answered};
ghost use Rattle.readback.specs.Lent.{Lent};

use account::Bytes;
use comparing::Changes;
use finding::table::Found;
use merger::Merged;
use panel::Listed;
use reader::into::Answer;
use rescuer::Rescued;
use sentence::Explanation;
use sharing::Held;
use summary::Panel;
use view::Extent;
use writer::Written;

// The refusal number of a file, 0 for one that is accepted. Never ROOM: no table is lent.
#[unsafe(no_mangle)]
pub extern "C" fn zt_accept(file: &[u8]) -> u64
    ensures { result ≡ (verdict (reading current file.now)).number }
{
    let v = reader::accept(file);
    v.number
}

// A file read into a lent table: the verdict, both counts, the manifest's start, and the place and length of the root's attributes.
#[unsafe(no_mangle)]
pub extern "C" fn zt_read(file: &[u8], table: &mut [u64]) -> Answer
    ensures { (result ≡ answered (read_into current file.now (length table.old))) × (table.new ≡ table_after table.old (read_into current file.now (length table.old))) }
{
    reader::into::read(file, table)
}

// The refusal number of a file of a layout, 0 for one that is accepted: 1 is layout 1.0, every other number 1.2.0.
#[unsafe(no_mangle)]
pub extern "C" fn zt_accept_as(layout: u64, file: &[u8]) -> u64
    ensures { result ≡ (verdict (reading (layout_of layout) file.now)).number }
{
    let v = reader::accept_as(layout, file);
    v.number
}

// A file of a layout read into a lent table.
#[unsafe(no_mangle)]
pub extern "C" fn zt_read_as(layout: u64, file: &[u8], table: &mut [u64]) -> Answer
    ensures { (result ≡ answered (read_into (layout_of layout) file.now (length table.old))) × (table.new ≡ table_after table.old (read_into (layout_of layout) file.now (length table.old))) }
{
    reader::into::read_as(layout, file, table)
}

// Where one component lies, by any table: 0, its offset and its length; or INDEX, 0 and 0.
#[unsafe(no_mangle)]
pub extern "C" fn zt_view(
    file: &[u8],
    table: &[u64],
    objects: u64,
    components: u64,
    index: u64,
) -> Extent
    ensures { result ≡ extent.told (viewed file.now table.now objects components index) }
{
    view::range(file, table, objects, components, index)
}

// What the f32 numbers of one component show, by any table: 0, its finding, the patterns of the smallest and the largest, and how many NaNs; or INDEX and zeros.
#[unsafe(no_mangle)]
pub extern "C" fn zt_find(
    file: &[u8],
    table: &[u64],
    objects: u64,
    components: u64,
    index: u64,
) -> Found
    ensures { result ≡ found file.now table.now objects components index }
{
    finding::table::find_in(file, table, objects, components, index)
}

// Where the bytes of a file of a layout are: the verdict, and the bytes of frame and manifest, in components and in none. The lent room, as much as a table's, ends as zeros.
#[unsafe(no_mangle)]
pub extern "C" fn zt_account(layout: u64, file: &[u8], work: &mut [u64]) -> Bytes
    ensures answer { result ≡ accounted (layout_of layout) file.now (read_into (layout_of layout) file.now (length work.old)) }
    ensures cleared { work.new ≡ replicate (length work.old) 0 }
{
    account::of_file(layout, file, work)
}

// The listing, by any table, put into a lent text: 0 and its length; or INDEX or ROOM, and 0.
#[unsafe(no_mangle)]
pub extern "C" fn zt_list(
    file: &[u8],
    table: &[u64],
    objects: u64,
    components: u64,
    text: &mut [u8],
) -> Listed
    ensures answer { result ≡ listing.told (listed file.now table.now objects components) (length text.old) }
    ensures written { text.new ≡ listing.text_after (listed file.now table.now objects components) text.old }
{
    panel::list(file, table, objects, components, text)
}

// The panel's text of a file of a layout, put into a lent text: the listing with what is found in each component, and where the file's bytes are. The lent room ends as zeros.
#[unsafe(no_mangle)]
pub extern "C" fn zt_panel(layout: u64, file: &[u8], work: &mut [u64], text: &mut [u8]) -> Panel
    ensures answer { result ≡ panelled.told (panelled.shown (layout_of layout) file.now (length work.old)) (length text.old) }
    ensures written { text.new ≡ listing.text_after (panelled.shown (layout_of layout) file.now (length work.old)) text.old }
    ensures cleared { work.new ≡ replicate (length work.old) 0 }
{
    summary::of_file(layout, file, work, text)
}

// What changed between two files, each of its own layout, put into a lent list, eight numbers an entry: 0 and how many entries; or a refusal and its file, or ROOM. The lent room ends as zeros.
#[unsafe(no_mangle)]
pub extern "C" fn zt_diff(
    layout: u64,
    first: &[u8],
    other: u64,
    second: &[u8],
    work: &mut [u64],
    list: &mut [u64],
) -> Changes
    ensures answer { result ≡ comparison.told (comparison.compared (layout_of layout) first.now (layout_of other) second.now (length work.old)) (length list.old) }
    ensures written { list.new ≡ comparison.after (comparison.compared (layout_of layout) first.now (layout_of other) second.now (length work.old)) list.old }
    ensures cleared { work.new ≡ replicate (length work.old) 0 }
{
    comparing::of_files(layout, first, other, second, work, list)
}

// A whole file from rows, put into a lent output: 0, 0, 0 and its length; or the refusal, where it is, and 0. What the slices are is all that read-back asks for.
#[unsafe(no_mangle)]
pub extern "C" fn zt_write(
    rows: &[u64],
    objects: u64,
    components: u64,
    place: u64,
    size: u64,
    buffer: &[u8],
    out: &mut [u8],
) -> Written
    ensures answer { Answered (written rows.now objects components (record { place = place; size = size }) buffer.now (length out.old)) result out.old out.new }
    ensures lent { Lent rows.now buffer.now }
{
    writer::write(rows, objects, components, place, size, buffer, out)
}

// The same with each blob at its offset in a plan, whose ends are at most at a ceiling.
#[unsafe(no_mangle)]
pub extern "C" fn zt_write_planned(
    rows: &[u64],
    objects: u64,
    components: u64,
    place: u64,
    size: u64,
    buffer: &[u8],
    plan: &[u64],
    ceiling: u64,
    out: &mut [u8],
) -> Written
    ensures answer { Answered (written_by rows.now objects components (record { place = place; size = size }) buffer.now plan.now ceiling (length out.old)) result out.old out.new }
    ensures lent { Lent rows.now buffer.now }
{
    writer::write_planned(
        plan, ceiling, rows, objects, components, place, size, buffer, out,
    )
}

// Two files, each of a layout, into one of 1.2.0, put into a lent output: 0, or ROOM, and the file's length; or a refusal, and which file it is about. The lent rows end as zeros.
#[unsafe(no_mangle)]
pub extern "C" fn zt_merge(
    one: u64,
    first: &[u8],
    two: u64,
    second: &[u8],
    rows: &mut [u64],
    out: &mut [u8],
) -> Merged
    ensures answer { result ≡ joining.answered (merging.merge (layout_of one) first.now (layout_of two) second.now (length rows.old) (length out.old)) }
    ensures output { out.new ≡ merging.merge_output out.old (merging.merge (layout_of one) first.now (layout_of two) second.now (length rows.old) (length out.old)) }
    ensures cleared { rows.new ≡ merging.merge_rows rows.old }
{
    merger::merge(one, first, two, second, rows, out)
}

// What is sound of a file of a layout, into one of 1.2.0, put into a lent output: 0, or ROOM, with how many objects are kept and dropped and the file's length; or a refusal. What is dropped is put into a
// lent list. The lent rows end as zeros.
#[unsafe(no_mangle)]
pub extern "C" fn zt_rescue(
    layout: u64,
    file: &[u8],
    rows: &mut [u64],
    list: &mut [u64],
    out: &mut [u8],
) -> Rescued
    ensures answer { result ≡ rescued.answered (rescuing.rescue (layout_of layout) file.now (length rows.old) (length list.old) (length out.old)) }
    ensures listed { list.new ≡ rescuing.rescue_list list.old (rescuing.rescue (layout_of layout) file.now (length rows.old) (length list.old) (length out.old)) }
    ensures output { out.new ≡ rescuing.rescue_output out.old (rescuing.rescue (layout_of layout) file.now (length rows.old) (length list.old) (length out.old)) }
    ensures cleared { rows.new ≡ rescuing.rescue_rows rows.old }
{
    rescuer::rescue(layout, file, rows, list, out)
}

// Why a file of a layout is refused, to a table of `room` numbers, none of which is lent: number, object and component, the places and lengths of their names and of what is at fault, and with ROOM the
// numbers needed. All 0 for a file that is accepted.
#[unsafe(no_mangle)]
pub extern "C" fn zt_explain(layout: u64, file: &[u8], room: u64) -> Explanation
    ensures { explanation result ≡ why.explain (layout_of layout) file.now room }
{
    explain::explain(layout, file, room)
}

// The same as a sentence, one line put into a lent text: 0 and its length, also for a file that is refused; or ROOM and 0.
#[unsafe(no_mangle)]
pub extern "C" fn zt_sentence(layout: u64, file: &[u8], room: u64, text: &mut [u8]) -> Listed
    ensures answer { result ≡ listing.told (pass (line.sentence (layout_of layout) file.now room)) (length text.old) }
    ensures written { text.new ≡ listing.text_after (pass (line.sentence (layout_of layout) file.now room)) text.old }
{
    explain::say(layout, file, room, text)
}

// Two engines and one table, whose numbers and states are lent to every call. A file of a layout, loaded for an engine: INDEX, BUSY, the reader's refusal, ROOM; or what reading answers. The
// rows and the engine's state are written, and nothing else.
#[unsafe(no_mangle)]
pub extern "C" fn zt_load(shared: &mut [u64], engine: u64, layout: u64, file: &[u8]) -> Answer
    ensures answer { result ≡ said.answer (calls.answered 65536 engine (calls.load layout file.now) shared.old) }
    ensures left { shared.new ≡ calls.leaves 65536 engine (calls.load layout file.now) shared.old }
{
    sharing::load(shared, engine, layout, file)
}

// An engine's rows and state become zeros: 0, also if nothing was loaded; or INDEX.
#[unsafe(no_mangle)]
pub extern "C" fn zt_drop(shared: &mut [u64], engine: u64) -> u64
    ensures answer { result ≡ said.number (calls.answered 65536 engine calls.drops shared.old) }
    ensures left { shared.new ≡ calls.leaves 65536 engine calls.drops shared.old }
{
    sharing::release(shared, engine)
}

// Where an engine's rows stand, and what was answered when they were loaded; all 0 if nothing is loaded.
#[unsafe(no_mangle)]
pub extern "C" fn zt_holds(shared: &[u64], engine: u64) -> Held
    ensures { result ≡ said.held (calls.answered 65536 engine calls.holds shared.now) }
{
    sharing::holds(shared, engine)
}

// The view of a component by an engine's rows.
#[unsafe(no_mangle)]
pub extern "C" fn zt_engine_view(shared: &[u64], engine: u64, file: &[u8], index: u64) -> Extent
    ensures { result ≡ said.extent (calls.answered 65536 engine (calls.view file.now index) shared.now) }
{
    sharing::view(shared, engine, file, index)
}

// The listing by an engine's rows, put into a lent text.
#[unsafe(no_mangle)]
pub extern "C" fn zt_engine_list(
    shared: &[u64],
    engine: u64,
    file: &[u8],
    text: &mut [u8],
) -> Listed
    ensures answer { result ≡ said.listed (calls.answered 65536 engine (calls.list file.now (length text.old)) shared.now) }
    ensures written { text.new ≡ said.text_after (calls.answered 65536 engine (calls.list file.now (length text.old)) shared.now) text.old }
{
    sharing::list(shared, engine, file, text)
}

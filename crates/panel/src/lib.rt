// The listing's exact bytes, from a file and a table, into a lent text.
#![tactic(auto)]

mod ends;
mod lines;
mod rows;

ghost use Rattle.std.specs.Prelude.{◌≡◌, [], ◌∷◌, true, length};
ghost use Rattle.meaning.specs.Check.{pass};
ghost use Rattle.meaning.specs.Text.{ascii};
ghost use Rattle.meaning.specs.Listing.{line, decimal};
ghost use Rattle.put.specs.Wrote.{Wrote};
ghost use Rattle.panel.specs.Lines as is;
ghost use Rattle.panel.specs.Summary as summaries;
ghost use Rattle.panel.specs.ListedText.{told, text_after};

use numbers::Refusal;

// 0, and how many bytes the listing has; or INDEX or ROOM, and 0.
#[repr(C)]
#[derive(Clone, Copy)]
pub struct Listed {
    pub number: u64,
    pub length: u64,
}

// Counted in a text of one byte, then written if it fits.
pub fn list(file: &[u8], table: &[u64], objects: u64, components: u64, text: &mut [u8]) -> Listed
    ensures answer { result ≡ told (is.listed file.now table.now objects components) (length text.old) }
    ensures written { text.new ≡ text_after (is.listed file.now table.now objects components) text.old }
{
    if rows::sound(file, table, objects, components) {
        let mut scrap = [0u8; 1];
        let n = lines::whole(file, table, objects, components, false, &mut scrap);
        if text.len() < n {
            return Listed {
                number: Refusal::Room as u64,
                length: 0,
            };
        }
        lines::whole(file, table, objects, components, false, text);
        return Listed {
            number: 0,
            length: n as u64,
        };
    }
    Listed {
        number: Refusal::Index as u64,
        length: 0,
    }
}

// A summary's lines and its last.
fn summed(
    file: &[u8],
    table: &[u64],
    objects: u64,
    components: u64,
    frame: u64,
    manifest: u64,
    inside: u64,
    between: u64,
    out: &mut [u8],
) -> usize
    requires { is.sound file.now table.now objects components ≡ true }
    ensures { Wrote (summaries.summary_text file.now table.now objects components (summaries.bytes_line frame manifest inside between)) 0 out.old out.new result }
{
    let at = lines::whole(file, table, objects, components, true, out);
    ends::bytes_line(frame, manifest, inside, between, out, at)
}

// The listing with what is found in each component, and a last line for the file's bytes; likewise.
pub fn summary(
    file: &[u8],
    table: &[u64],
    objects: u64,
    components: u64,
    frame: u64,
    manifest: u64,
    inside: u64,
    between: u64,
    text: &mut [u8],
) -> Listed
    ensures answer { result ≡ told (summaries.summarised file.now table.now objects components (summaries.bytes_line frame manifest inside between)) (length text.old) }
    ensures written { text.new ≡ text_after (summaries.summarised file.now table.now objects components (summaries.bytes_line frame manifest inside between)) text.old }
{
    if rows::sound(file, table, objects, components) {
        let mut scrap = [0u8; 1];
        let n = summed(
            file, table, objects, components, frame, manifest, inside, between, &mut scrap,
        );
        if text.len() < n {
            return Listed {
                number: Refusal::Room as u64,
                length: 0,
            };
        }
        summed(
            file, table, objects, components, frame, manifest, inside, between, text,
        );
        return Listed {
            number: 0,
            length: n as u64,
        };
    }
    Listed {
        number: Refusal::Index as u64,
        length: 0,
    }
}

// The line of a refusal, likewise.
pub fn refusal(number: u64, object: u64, component: u64, text: &mut [u8]) -> Listed
    ensures answer { result ≡ told (pass (line (ascii "refused") (decimal number ∷ decimal object ∷ decimal component ∷ []))) (length text.old) }
    ensures written { text.new ≡ text_after (pass (line (ascii "refused") (decimal number ∷ decimal object ∷ decimal component ∷ []))) text.old }
{
    let mut scrap = [0u8; 1];
    let n = lines::refused(number, object, component, &mut scrap);
    if text.len() < n {
        return Listed {
            number: Refusal::Room as u64,
            length: 0,
        };
    }
    lines::refused(number, object, component, text);
    Listed {
        number: 0,
        length: n as u64,
    }
}

// Words that are put as they stand, likewise.
pub fn words(said: &[u8], text: &mut [u8]) -> Listed
    ensures answer { result ≡ told (pass said.now) (length text.old) }
    ensures written { text.new ≡ text_after (pass said.now) text.old }
{
    if text.len() < said.len() {
        return Listed {
            number: Refusal::Room as u64,
            length: 0,
        };
    }
    put::word(text, 0, said);
    Listed {
        number: 0,
        length: said.len() as u64,
    }
}

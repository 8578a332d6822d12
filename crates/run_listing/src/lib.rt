// The text of a shown run, written into a lent buffer line by line.
#![tactic(auto)]

ghost use Rattle.std.specs.Prelude.{◌≡◌, ◌+◌, ◌*◌, ◌^◌, ◌≤◌, ◌<◌, length};
ghost use Rattle.words.specs.Word.{word, long};
ghost use Rattle.append.specs.Piece.{Room, Appended, AtFront};
ghost use Rattle.run_listing.specs.RunText.{after, place_text, step_line, end_text, end_line, run_text, positions_of};

fn put_after(word: &[u8], x: usize, at: usize, out: &mut [u8]) -> usize
    requires { Room at (after word.now x) out.old }
    ensures { Appended at (after word.now x) result out.old out.new }
{
    let end = append::put_word(word, at, out);
    decimal::put_number(x, end, out)
}

fn put_place(state: usize, moment: usize, at: usize, out: &mut [u8]) -> usize
    requires { Room at (place_text state moment) out.old }
    ensures { Appended at (place_text state moment) result out.old out.new }
{
    let end = decimal::put_number(state, at, out);
    put_after(b" at ", moment, end, out)
}

fn put_step(
    state: usize,
    moment: usize,
    duration: usize,
    next: usize,
    at: usize,
    out: &mut [u8],
) -> usize
    requires { Room at (step_line state moment duration next) out.old }
    ensures { Appended at (step_line state moment duration next) result out.old out.new }
{
    let placed = put_place(state, moment, at, out);
    let timed = put_after(b": ", duration, placed, out);
    let led = put_after(b" minutes to ", next, timed, out);
    append::put(b'\n', led, out)
}

fn put_end_text(all: bool, c: usize, moment: usize, at: usize, out: &mut [u8]) -> usize
    requires { Room at (end_text all c moment) out.old }
    ensures { Appended at (end_text all c moment) result out.old out.new }
{
    if all {
        if c < moment {
            return put_after(b": above ", c, at, out);
        }
        return append::put_word(b": neither operand", at, out);
    }
    put_after(b": until met at ", moment, at, out)
}

fn put_end(all: bool, c: usize, state: usize, moment: usize, at: usize, out: &mut [u8]) -> usize
    requires { Room at (end_line all c state moment) out.old }
    ensures { Appended at (end_line all c state moment) result out.old out.new }
{
    let placed = put_place(state, moment, at, out);
    let told = put_end_text(all, c, moment, placed, out);
    append::put(b'\n', told, out)
}

// The state at position i.
fn state_at(run: &[u8], i: usize) -> usize
    requires { 6 * i + 6 ≤ length run.now }
    ensures { (result ≡ word run.now (6 * i)) × (result < 65536) }
{
    words::be16(run, 6 * i) as usize
}

// The duration at position i.
fn duration_at(run: &[u8], i: usize) -> usize
    requires { 6 * i + 6 ≤ length run.now }
    ensures { (result ≡ long run.now (6 * i + 2)) × (result < 2 ^ 32) }
{
    words::be32(run, 6 * i + 2) as usize
}

// The text of a run of at most 257 positions of six bytes: at most 52 bytes a line.
pub fn list_run(run: &[u8], all: bool, c: u32, out: &mut [u8]) -> usize
    requires { (6 ≤ length run.now) × (length run.now ≤ 257 * 6) × (257 * 52 ≤ length out.old) }
    ensures { AtFront (run_text all c (positions_of run.now)) result out.old out.new }
{
    let last = run.len() / 6 - 1;
    let mut moment = 0;
    let mut end = 0;
    for i in 0..last {
        let duration = duration_at(run, i);
        end = put_step(
            state_at(run, i),
            moment,
            duration,
            state_at(run, i + 1),
            end,
            out,
        );
        moment += duration;
    }
    put_end(all, c as usize, state_at(run, last), moment, end, out)
}

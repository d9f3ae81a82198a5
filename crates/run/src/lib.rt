// Internal, for `sheet`: the run over a sheet (01, "The sheet program"). Each line is read, made on the plan and answered.
#![tactic(auto)]

ghost use Rattle.std.specs.Prelude.{◌≡◌, ◌≤◌, length};
ghost use Rattle.rules.specs.Table.{lowers, gaps, uppers};
ghost use Rattle.state.specs.Spread.{spread};
ghost use Rattle.state.specs.View.{view};
ghost use Rattle.writer.specs.Writes.{line_of, put_in, put_count};
ghost use Rattle.calls.specs.Makes.{Kept, SoundIn, row_told};
ghost use Rattle.run.specs.Sound.{sound_in};
ghost use Rattle.run.specs.Progress.{Advanced};
ghost use Rattle.run.specs.Lines.{AnsweredLine, PutSome, first_length};

use calls::{Beside, Told};
use heads::Mode;
use protocol::limit;
use state::State;

// How a run goes: from which place of the sheet on, how many bytes are to be free before a line is begun, whether it goes on where an answer does not fit, and whether
// every rule is known to hold.
#[derive(Clone, Copy)]
pub struct Way {
    pub from: usize,
    pub reserve: usize,
    pub on: bool,
    pub sound: bool,
}

// Where a run stands: the place of the line that comes next, how many bytes were written, and whether an answer did not fit.
#[derive(Clone, Copy)]
pub struct Progress {
    pub next: usize,
    pub written: usize,
    pub ended: bool,
}

// A line that was answered: its length, and how many bytes its answer takes, if it fits.
#[derive(Clone, Copy)]
struct Answered {
    end: usize,
    put: Option<usize>,
}

// The values that an answer gives besides.
fn shown(p: &State, side: Option<u32>) -> &[i32]
    ensures { result.now ≡ row_told p.now side }
{
    match side {
        Some(s) => {
            let at = heads::offset(s);
            &p.values[at..at + rows::capped(p.head.measures, limit::MEASURES)]
        }
        None => &p.values[..0],
    }
}

// Puts an answer into a room.
fn tell(told: Told, p: &State, room: &mut [u8]) -> Option<usize>
    ensures { (room.new ≡ put_in (line_of told.answer (row_told p.now told.shown)) room.old) ×
        (result ≡ put_count (line_of told.answer (row_told p.now told.shown)) room.old) }
{
    writer::put(told.answer, shown(p, told.shown), room)
}

// The first line of a sheet's rest, made on the plan and answered.
fn take_line(p: &mut State, beside: &mut Beside, rest: &[u8], room: &mut [u8]) -> Answered
    ensures end { (result.end ≡ first_length rest.now) × (result.end ≤ length rest.now) }
    ensures put { PutSome room.old result.put room.new }
    ensures line { Kept beside.old p.old → AnsweredLine rest.now p.old room.old result.put p.new beside.new room.new }
{
    let line = reader::read_line(rest);
    let told = calls::make(line.call, p, beside);
    Answered {
        end: line.end,
        put: tell(told, p, room),
    }
}

// The rules of a plan hold once it is open, and every call keeps it so (`sound`): of a blank one this is known, and a whole one is tested.
pub fn is_sound(p: &State) -> bool
    ensures { result ≡ sound_in p.now.head (lowers p.now.table) (gaps p.now.table) (uppers p.now.table) p.now.values }
{
    match p.head.mode {
        Mode::Blank => true,
        Mode::Whole => draw::rules_hold(p),
        _ => false,
    }
}

// The loop: goes on from a line of the sheet as long as so many bytes of the area are free and each answer fits. Where it is to go on, an answer that does not fit is
// dropped, and does not end the run: an owner that wants only the plan lends no room.
pub fn advance(p: &mut State, way: Way, sheet: &[u8], area: &mut [u8]) -> Progress
    ensures { SoundIn way.sound (spread p.old) → Advanced way.on way.reserve sheet.now way.from (view p.old) area.old (view p.new) result.next result.written result.ended area.new }
{
    let mut beside = Beside::of(p, way.sound);
    let mut next = way.from;
    let mut written = 0;
    let mut ended = false;
    while !ended && next < sheet.len() && way.reserve <= area.len() - written {
        let line = take_line(p, &mut beside, &sheet[next..], &mut area[written..]);
        match line.put {
            Some(n) => written += n,
            None => ended = !way.on,
        }
        next += line.end + 1;
    }
    Progress {
        next,
        written,
        ended,
    }
}

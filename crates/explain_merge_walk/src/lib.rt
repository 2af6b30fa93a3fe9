// The costliest way of the merging bound: found backwards from STOP, and its lines written into lent memory. The meaning is in specs/.
#![tactic(auto)]

ghost use Rattle.std.specs.Prelude.{◌≡◌, [], ℕ, ◌+◌, ◌≤◌, ◌<◌, length, drop};
ghost use Rattle.text.specs.Text.{lines};
ghost use Rattle.text_decimals.specs.Memory.{over};
ghost use Rattle.merge_way.specs.Way.{out, Origins, way_back};
ghost use Rattle.merge_origins.specs.HeldOrigins.{Goals, Keeps};
ghost use Rattle.explain_merge_walk.specs.HeldLasts.{Traced, Lists, Usable, way_text};

use explain_lines::Cursor;

// The goals of the moves of the costliest way, from the place that is answered on: at most `most` of them, of which the last is STOP.
pub fn way_back(kept: &[u64], most: usize, goals: &mut [u64]) -> usize
    requires { Goals kept.now × Traced kept.now × (length goals.old ≡ 1025) × (most ≤ 1025) }
    ensures upper_bound { result ≤ 1025 }
    ensures by_index { (first : ℕ) (o : Origins) → Keeps first kept.now o → Lists first kept.now (drop result goals.new) (way_back o most (o out) []) }
{
    let mut place = 1025;
    let mut goal = 1025;
    for _ in 0..most {
        let l = merge_origins::last_of(kept, goal);
        if l.way == 0 {
            return place;
        }
        place -= 1;
        goals[place] = goal as u64;
        goal = l.row as usize;
    }
    place
}

// Puts the lines of the moves that are kept for the goals over out from `at` on, and answers where they end.
pub fn put_way(out: &mut [u8], at: usize, body: &[u8], kept: &[u64], goals: &[u64]) -> usize
    requires { Goals kept.now × Usable kept.now goals.now × (length goals.now ≤ 1025) × (at + length (way_text (lines body.now) 0 0 kept.now goals.now) ≤ length out.old) }
    ensures value { result ≡ at + length (way_text (lines body.now) 0 0 kept.now goals.now) }
    ensures out_after { out.new ≡ over out.old at (way_text (lines body.now) 0 0 kept.now goals.now) }
{
    let mut e = at;
    let mut spent: u64 = 0;
    let mut sum: u64 = 0;
    let mut cursor = Cursor { byte: 0, line: 0 };
    for goal in goals {
        let l = merge_origins::last_of(kept, *goal as usize);
        spent = spent + l.cycles;
        sum = sum + l.words;
        cursor = explain_lines::seek(body, cursor, l.row as usize);
        let line = explain_lines::line_under(body, cursor);
        e = explain_lines::put_entry(out, e, line, spent, sum, l.depth, l.way);
    }
    e
}

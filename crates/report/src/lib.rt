// The hand-over program's text for a job.
#![tactic(auto)]

mod lines;
mod put;

ghost use Rattle.std.specs.Prelude.{◌≡◌, ◌++◌, ◌≤◌, min, length, take, drop};
ghost use Rattle.report.specs.Text.{hand_over_text, most_text};

use jobs::kind::Operation;

// Puts the text for a job at the start of `out`, as far as it fits, and answers how many bytes. It calls the cut
// operation if the job's fourth byte is 2 or 3, else the floor operation, also for a job of under four bytes. The text
// says what a caller of the operation is told, so it is made of the answer that a caller gets.
pub fn hand_over(job: &[u8], out: &mut [u8]) -> usize
    ensures count { result ≡ min (length (hand_over_text job.now)) (length out.old) }
    ensures text { out.new ≡ take result (hand_over_text job.now) ++ drop result out.old }
    ensures short { length (hand_over_text job.now) ≤ most_text }
{
    let mut images = [0u32; fields::MOST_SIZES];
    let mut working = [0u64; tables::MOST_ENTRIES];
    let mut list = [0u32; jobs::LIST_PLACES];
    if Operation::Cuts.takes(lines::fourth_byte(job)) {
        let mut scales = [0u32; fields::MOST_ROWS];
        let answer = cuts::windowfloor_cut(job, &mut images, &mut working, &mut list, &mut scales);
        return lines::put_cut_answer(out, job, answer, &images, &list, &scales);
    }
    let mut blocks = [0u32; fields::MOST_BLOCKS];
    let answer = floors::windowfloor_floor(job, &mut images, &mut working, &mut list, &mut blocks);
    lines::put_floor_answer(out, job, answer, &images, &list, &blocks)
}

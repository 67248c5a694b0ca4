//! Answers as numbers.

use shm_script::Answer;
use t_runs::Sum;

/// Takes what was answered into the sum.
pub fn add_answer(sum: &mut Sum, answer: Answer) {
    match answer {
        Answer::Stored { block } => {
            sum.add(0);
            sum.add(u64::from(block));
        }
        Answer::Ok => sum.add(1),
        Answer::Value { number, block } => sum.add_two(2, number, u64::from(block)),
        Answer::Missing => sum.add(3),
        Answer::Empty { at } => {
            sum.add(4);
            sum.add(at);
        }
        Answer::QueueFull { head, tail } => sum.add_two(5, head, tail),
        Answer::EraSpent { era } => {
            sum.add(6);
            sum.add(era);
        }
        Answer::RootsFull => sum.add(7),
        Answer::CountFull { block, count } => sum.add_two(8, u64::from(block), u64::from(count)),
        Answer::Full { segments, blocks } => {
            sum.add_two(9, u64::from(segments), u64::from(blocks));
        }
    }
}

// What a call answered, as a line says it: a word and numbers.
use drivelog::{Answer, Cursor, Refusal, Step};
use replay_script::input::Command;
use replay_script::print::{AnswerWord, Said};

// What a call answered, and the cursor to go on with.
#[derive(Clone, Copy)]
pub struct Told {
    pub said: Said,
    pub cursor: Cursor,
}

// An answer with up to two numbers.
fn short(word: AnswerWord, count: u64, first: u64, second: u64, ops: u64) -> Said {
    Said {
        word,
        count,
        numbers: [first, second, 0, 0, 0, 0],
        damage: 0,
        ops,
    }
}

// A refusal: its number, its detail, and the test of a damaged record. A refused call makes no ops.
fn refused(why: Refusal) -> Said {
    let number = drivelog::number_of(why);
    let detail = drivelog::detail_of(why);
    Said {
        word: AnswerWord::Refused,
        count: 2,
        numbers: [number, detail, 0, 0, 0, 0],
        damage: drivelog::damage_of(why),
        ops: 0,
    }
}

// The answer of a writing call, with its count of ops.
pub fn of_answer(answer: Result<Answer, Refusal>, ops: u64) -> Said {
    match answer {
        Ok(Answer::Done) => short(AnswerWord::Ok, 0, 0, 0, ops),
        Ok(Answer::Reserved(lsn, pos)) => short(AnswerWord::Ok, 2, lsn, pos, ops),
        Ok(Answer::Durable) => short(AnswerWord::Kept, 0, 0, 0, ops),
        Ok(Answer::Deferred) => short(AnswerWord::PutOff, 0, 0, 0, ops),
        Err(why) => refused(why),
    }
}

// An answer of six numbers.
fn long(word: AnswerWord, numbers: [u64; 6]) -> Said {
    Said {
        word,
        count: 6,
        numbers,
        damage: 0,
        ops: 0,
    }
}

// The answer of open, with its cursor.
pub fn of_opened(opened: Result<Cursor, Refusal>, cursor: Cursor) -> Told {
    match opened {
        Ok(c) => {
            let said = long(
                AnswerWord::Ok,
                [
                    c.pos,
                    c.lsn,
                    c.used,
                    c.count,
                    c.last_epoch,
                    c.superline_epoch,
                ],
            );
            Told { said, cursor: c }
        }
        Err(why) => {
            let said = refused(why);
            Told { said, cursor }
        }
    }
}

// The answer of next, with the cursor after a record.
pub fn of_step(step: Result<Step, Refusal>, cursor: Cursor) -> Told {
    match step {
        Ok(Step::Record(f, behind)) => {
            let said = long(
                AnswerWord::Record,
                [f.pos, f.lsn, f.kind, f.length, f.mark, f.epoch],
            );
            Told {
                said,
                cursor: behind,
            }
        }
        Ok(Step::End(lsn)) => {
            let said = short(AnswerWord::End, 1, lsn, 0, 0);
            Told { said, cursor }
        }
        Err(why) => {
            let said = refused(why);
            Told { said, cursor }
        }
    }
}

// The answer of fetch.
pub fn of_fetched(fetched: Result<(), Refusal>) -> Said {
    match fetched {
        Ok(()) => short(AnswerWord::Ok, 0, 0, 0, 0),
        Err(why) => refused(why),
    }
}

// Where no call is made nothing is said. Command 6 is another cursor.
pub fn of_none(c: Command, cursor: Cursor) -> Told {
    let said = short(AnswerWord::Ok, 0, 0, 0, 0);
    if c.number == 6 {
        let set = Cursor {
            pos: c.first,
            lsn: c.second,
            used: c.third,
            count: c.fourth,
            last_epoch: c.fifth,
            superline_epoch: c.sixth,
        };
        return Told { said, cursor: set };
    }
    Told { said, cursor }
}

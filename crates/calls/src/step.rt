// Rows `step`: one call of the step. Record and event are the numbers of the C interface.
ghost use Rattle.std.specs.Prelude.{◌≤◌, IfSome, length};

use crate::lists::Lists;
use arrayvec::ArrayVec;
use capi::menhotrac_step;
use connection::{Actions, part};
use interface::FlatEvent;
use scan::{BYTES, Group, Groups};
use std::io;
use std::io::Write;
use stdio::{Numbers, Runs};

// A row that owns its payload and its cache, so that it can be kept.
#[derive(Debug, PartialEq, Eq, Drop)]
pub struct Row {
    record: [u32; 12],
    event: FlatEvent,
    payload: ArrayVec<u8, BYTES>,
    cache: ArrayVec<u8, BYTES>,
    lists: Lists,
}

// A row whose payload and cache lie in lent buffers, so that it is small and can be handed on.
#[derive(Debug, Drop)]
pub struct LentRow<'a> {
    record: [u32; 12],
    event: FlatEvent,
    payload: &'a [u8],
    cache: &'a mut [u8],
    lists: Lists,
}

// The event that a group is. Its items stand in the order of the fields.
fn event_in(group: Group<'_>) -> Option<FlatEvent> {
    let mut items = group.items();
    let event = FlatEvent {
        code: items.number()?,
        tag: items.number()?,
        timer: items.number()?,
        bit: items.number()?,
        verdict: items.number()?,
        margin: items.number()?,
        expiry: items.number()?,
        now: items.number()?,
    };
    items.next().is_none().then_some(event)
}

impl Row {
    // What follows the word; `None` where it is not understood.
    pub fn read(text: &[u8]) -> Option<Row> {
        let mut payload = [0; BYTES];
        let mut cache = [0; BYTES];
        let row = LentRow::read(text, &mut payload, &mut cache)?;
        Some(Row {
            record: row.record,
            event: row.event,
            payload: ArrayVec::try_from(row.payload).unwrap(),
            cache: ArrayVec::try_from(&*row.cache).unwrap(),
            lists: row.lists,
        })
    }

    // The step changes record and cache.
    pub fn answer<W: Write>(self, out: &mut W) -> io::Result<()> {
        let Row {
            record,
            event,
            payload,
            mut cache,
            lists,
        } = self;
        let row = LentRow {
            record,
            event,
            payload: payload.as_slice(),
            cache: cache.as_mut_slice(),
            lists,
        };
        row.answer(out)
    }
}

impl<'a> LentRow<'a> {
    // What follows the word, its bytes in two buffers; `None` where it is not understood.
    pub fn read(text: &[u8], payload: &'a mut [u8], cache: &'a mut [u8]) -> Option<LentRow<'a>>
        ensures { IfSome result (λ row. (length row.payload.now ≤ length payload.old) × (length row.cache.now ≤ length cache.old)) }
    {
        let mut groups = Groups::new(text);
        let row = LentRow {
            record: groups.next()?.numbers()?.into_inner().ok()?,
            event: event_in(groups.next()?)?,
            payload: groups.next()?.bytes(payload)?,
            cache: groups.next()?.bytes(cache)?,
            lists: Lists::read(&mut groups)?,
        };
        groups.next().is_none().then_some(row)
    }

    // The step changes record and cache.
    pub fn answer<W: Write>(self, out: &mut W) -> io::Result<()> {
        let LentRow {
            mut record,
            event,
            payload,
            cache,
            lists,
        } = self;
        let mut actions = [0; 16];
        let answer = menhotrac_step(
            &mut record,
            event,
            payload,
            cache,
            &mut actions,
            lists.our_verifiers.as_slice(),
            lists.peer_provers.as_slice(),
            lists.peer_verifiers.as_slice(),
            lists.our_provers.as_slice(),
        );
        write!(out, "step {answer} ;{}", Numbers(&record))?;
        show(out, &actions, payload, cache)
    }
}

// The actions of a step, the payload part that they name, and the cache after it.
fn show<'a, W: Write>(
    out: &mut W,
    actions: &[u32; 16],
    payload: &'a [u8],
    cache: &'a [u8],
) -> io::Result<()> {
    let sent = part(Actions::from(actions), payload, cache);
    write!(out, " ;{} ;{}", Numbers(actions), Runs(sent))?;
    writeln!(out, " ;{}", Runs(cache))
}

#[cfg(test)]
mod tests {
    use super::*;
    use std::test::Fail;

    // A block of five bytes is sent in state 7. The row stands in stdin of the program `cases`, and its answer in stdout.
    const BLOCK: &[u8] =
        b" 7 0 0 0 0 4 0 0 0 2 4 0 ; 2 0 0 0 0 0 0 0 ; 0102030405 ; 4096*00 ; ; ; ;";

    #[test]
    fn owned_row_is_kept_and_answered(rt: HostRuntime) -> Result<(), Fail> {
        let row = Row::read(BLOCK).ok_or("not understood")?;
        assert!(rt; row == Row::read(BLOCK).ok_or("not understood")?);
        let mut out: ArrayVec<u8, 256> = ArrayVec::new();
        row.answer(&mut out)?;
        let answer =
            b"step 0 ; 8 1 0 0 5 5 0 0 0 2 4 5 ; 8 0 0 0 0 0 0 0 1 0 0 0 0 0 2 5 ; 1*01 1*02 1*03 1*04 1*05 ; 1*01 1*02 1*03 1*04 1*05 4091*00\n";
        assert_eq!(rt; out.as_slice(), answer.as_slice());
        Ok(())
    }

    // Five bytes and 4,096 in buffers that have room for just as many, and the first buffer a byte smaller.
    #[test]
    fn lent_row_needs_room_for_its_bytes(rt: HostRuntime) {
        let mut cache = [1; 4096];
        assert!(rt; LentRow::read(BLOCK, &mut [0; 5], &mut cache).is_some());
        assert!(rt; LentRow::read(BLOCK, &mut [0; 4], &mut cache).is_none());
    }

    // The most bytes of a group, and one more.
    #[test]
    fn owned_row_has_room_for_the_most_bytes(rt: HostRuntime) {
        let most = b" 7 0 0 0 0 4 0 0 0 2 4 0 ; 2 0 0 0 0 0 0 0 ; 32768*01 ; 32768*00 ; ; ; ;";
        assert!(rt; Row::read(most).is_some());
        let more = b" 7 0 0 0 0 4 0 0 0 2 4 0 ; 2 0 0 0 0 0 0 0 ; 32769*01 ; 32768*00 ; ; ; ;";
        assert!(rt; Row::read(more).is_none());
    }
}

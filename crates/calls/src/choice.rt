// Rows `suites`: the suite choice, asked alone.
use crate::lists::Lists;
use capi::menhotrac_choose_suites;
use scan::Groups;
use std::io;
use std::io::Write;
use stdio::Numbers;

#[derive(Debug, PartialEq, Eq, Drop)]
pub struct Row {
    lists: Lists,
}

impl Row {
    // What follows the word; `None` where it is not understood.
    pub fn read(text: &[u8]) -> Option<Row> {
        let mut groups = Groups::new(text);
        let row = Row {
            lists: Lists::read(&mut groups)?,
        };
        groups.next().is_none().then_some(row)
    }

    pub fn answer<W: Write>(&self, out: &mut W) -> io::Result<()> {
        let lists = &self.lists;
        let mut chosen = [0; 4];
        let refusal = menhotrac_choose_suites(
            lists.our_verifiers.as_slice(),
            lists.peer_provers.as_slice(),
            lists.peer_verifiers.as_slice(),
            lists.our_provers.as_slice(),
            &mut chosen,
        );
        writeln!(out, "suites {refusal} ;{}", Numbers(&chosen))
    }
}

// What the listing of a sheet's trees has come to, and whether finding gave the same.
use pricing::Priced;
use sheet::{Refusal, Refused};
use std::io;

// The least total of the trees so far, how many trees have it, and whether the first of these is the tree that finding gave.
#[derive(Clone, Copy)]
struct Least {
    total: u64,
    equals: u64,
    first_found: bool,
}

// What the listing has come to: the number of trees, the least of them, and how many lists went wrong: they were refused by pricing, or
// longer than any tree.
#[derive(Clone, Copy)]
pub struct Tally {
    trees: u64,
    least: Option<Least>,
    wrong: u64,
}

// Least with one more tree of a total, which finding gave or not. Trees come in dictionary order.
fn least_with(least: Option<Least>, total: u64, found: bool) -> Least {
    match least {
        Some(least) if least.total < total => least,
        Some(least) if least.total == total => Least {
            equals: least.equals.saturating_add(1),
            ..least
        },
        _ => Least {
            total,
            equals: 1,
            first_found: found,
        },
    }
}

impl Tally {
    pub fn new() -> Tally {
        Tally {
            trees: 0,
            least: None,
            wrong: 0,
        }
    }

    pub fn goes_wrong(&mut self) {
        self.wrong = self.wrong.saturating_add(1);
    }

    // A list that leaves no item: it is a tree where nothing is carried out. Lists come in dictionary order.
    pub fn add(&mut self, text: &[u8], found: &[u8], list: &[u8], carried: u8) {
        if carried != 0 {
            return;
        }
        let Ok(p) = pricing::price(text, list) else {
            self.goes_wrong();
            return;
        };
        self.trees = self.trees.saturating_add(1);
        self.least = Some(least_with(self.least, p.total, found == list));
    }

    // Whether finding gave what listing comes to.
    fn agrees(&self, answer: Result<Priced, Refused>) -> bool {
        if self.wrong != 0 {
            return false;
        }
        match (self.least, answer) {
            (None, Err(e)) => matches!(e.refusal, Refusal::NoTree),
            (Some(least), Ok(p)) => p.total == least.total && least.first_found,
            _ => false,
        }
    }

    pub fn print(&self, rt: &impl Print, answer: Result<Priced, Refused>) -> io::Result<()> {
        print!(rt; ": trees {}", self.trees)?;
        match self.least {
            None => rt.write_all(b", none")?,
            Some(least) => print!(rt; ", least {} of total {}", least.equals, least.total)?,
        }
        if self.agrees(answer) {
            rt.write_all(b", same")
        } else {
            rt.write_all(b", DIFFERENT")
        }
    }
}

// A run of calls, one after another, each with its answer printed.
use coordinator::Coordinator;
use coordinator::answers::Asked;
use numbers::{Database, Ticket};
use refusals::Refusal;
use std::io;

#[derive(Drop)]
pub(crate) struct Run<'a, P> {
    pub(crate) rt: &'a P,
    pub(crate) state: Coordinator,
}

impl<P: Print> Run<'_, P> {
    pub(crate) fn open(&mut self, mask: u16) -> io::Result<()> {
        let after = self.state.open(mask);
        self.state = after.state;
        match after.answer {
            Ok(opened) => {
                let ticket = opened.ticket.0;
                print!(self.rt; " opened {ticket} {} {}", opened.added, opened.moves)
            }
            Err(refusal) => self.refused(refusal),
        }
    }

    pub(crate) fn ask(&mut self, ticket: u16, database: u8) -> io::Result<()> {
        let after = self.state.ask(Ticket(ticket), Database(database));
        self.state = after.state;
        match after.answer {
            Ok(Asked::Released) => print!(self.rt; " released"),
            Ok(Asked::Held) => print!(self.rt; " held"),
            Err(refusal) => self.refused(refusal),
        }
    }

    pub(crate) fn confirm(&mut self, ticket: u16, database: u8) -> io::Result<()> {
        let after = self.state.confirm(Ticket(ticket), Database(database));
        self.state = after.state;
        match after.answer {
            Ok(Some(released)) => print!(self.rt; " releases {}", released.0),
            Ok(None) => print!(self.rt; " confirmed"),
            Err(refusal) => self.refused(refusal),
        }
    }

    pub(crate) fn close(&mut self, ticket: u16) -> io::Result<()> {
        let after = self.state.close(Ticket(ticket));
        self.state = after.state;
        match after.answer {
            Ok(Some(closed)) => {
                print!(self.rt; " closes")?;
                for ticket in closed.tickets.iter().take(closed.count as usize) {
                    print!(self.rt; " {ticket}")?;
                }
                Ok(())
            }
            Ok(None) => print!(self.rt; " held"),
            Err(refusal) => self.refused(refusal),
        }
    }

    fn refused(&self, refusal: Refusal) -> io::Result<()> {
        print!(self.rt; " refused {}", u8::from(refusal))
    }

    // The next candidate, at the end of a run.
    pub(crate) fn end(&self) -> io::Result<()> {
        println!(self.rt; " next {}", self.state.maker.next)
    }
}

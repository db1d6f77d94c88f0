use crate::abstract_run::Sharing;
use crate::random_clients::ROUND;

/// How many clients were accepted, and how many of them did each thing with frozen objects.
#[derive(Debug, Clone, Copy, Default)]
pub(crate) struct Counts {
    accepted: u32,
    froze: u32,
    had_no_room: u32,
    had_no_number: u32,
    shared: u32,
    read: u32,
}

impl Counts {
    /// Counts a client that was accepted.
    pub(crate) fn add(&mut self, sharing: Sharing) {
        count(&mut self.accepted, true);
        count(&mut self.froze, sharing.froze);
        count(&mut self.had_no_room, sharing.had_no_room);
        count(&mut self.had_no_number, sharing.had_no_number);
        count(&mut self.shared, sharing.shared);
        count(&mut self.read, sharing.read);
    }

    /// Whether enough of the clients did each thing, so that the run tests it. Fewer clients than a round are too few to tell.
    pub(crate) fn are_varied(&self, clients: u32) -> bool {
        let rounds = clients / ROUND;
        rounds == 0
            || is_over(self.accepted, 240, rounds)
                && is_over(self.froze, 30, rounds)
                && is_over(self.had_no_room, 5, rounds)
                && is_over(self.had_no_number, 10, rounds)
                && is_over(self.shared, 5, rounds)
                && is_over(self.read, 15, rounds)
    }
}

fn count(clients: &mut u32, is_one: bool) {
    *clients = clients.wrapping_add(u32::from(is_one));
}

/// Whether more than `least` clients were counted in each round.
fn is_over(counted: u32, least: u32, rounds: u32) -> bool {
    u64::from(counted) > u64::from(least).wrapping_mul(u64::from(rounds))
}

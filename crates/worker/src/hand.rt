use crate::share::Share;
use cache_desk::Desk;
use file_source::Source;
use shared_cache::Passes;
use tickets::TicketSeat;
use turn_lock::Logged;

/// What one worker has: its right to draw, its passes, and its share of the ends.
#[derive(Drop)]
pub struct Hand<S: Source>
where
    Desk<S>: Logged,
{
    pub seat: TicketSeat,
    pub passes: Passes<S>,
    pub share: Share,
}

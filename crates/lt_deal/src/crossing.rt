//! Seats cross threads, and threads share a deal: this compiles only where they may.
use crate::deal::Deal;
use crate::seat::DealSeat;

fn sent<T: Send>(x: T) -> T {
    x
}

fn shared<T: Sync>(_x: &T) {}

/// What is asked of both types, where the items may cross threads.
pub fn crossing<T: Send + Drop>(deal: &Deal<T>, seat: DealSeat<T>) -> DealSeat<T> {
    shared(deal);
    sent(seat)
}

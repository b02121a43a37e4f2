//! What a row about a clock-hour program is answered.

/// The answer to a row: the payment of a payment period, in whole dollars (34 CFR 690.63(e)); or what a withdrawal comes to (34 CFR
/// 668.22), the percent earned in tenths of a percent, and in cents what the school returns, what the student owes of it all, and the
/// post-withdrawal disbursement.
#[derive(Clone, Copy, PartialEq, Eq)]
pub enum ClockAnswer {
    Pay(u32),
    Returned {
        percent: u16,
        returned: u64,
        owed: u64,
        post: u64,
    },
}

//! Laws on nets, each as the contract of a function that computes nothing. A slice has the oldest filing first.
ghost use Rattle.std.specs.Prelude.{◌≡◌, ◌<◌, ◌≤◌, Bool, List, reverse};
ghost use Rattle.std.specs.List.{filter, sum_by};
ghost use Rattle.office_history.specs.Net.{Cell, net, net_at, returned, sent, taken};
ghost use Rattle.office_history.specs.Answer.{IsLegal};
ghost use Rattle.office_history.specs.Least.{HoldsPaid, IsEnrolled};

use aid_filings::Filing;

/// In a legal list the net of any cells, as those of a student's year, of a school in a year or of the main terms, is the
/// sum of the nets of those cells, each once, at which anything was paid. There is a list of these.
pub fn net_is_sum(history: &[Filing])
    requires { IsLegal (reverse history.now) }
    ensures sum { (cells : List Cell) → HoldsPaid (reverse history.now) cells → (passes : Cell → Bool)
        → net (reverse history.now) passes ≡ sum_by (net_at (reverse history.now)) (filter passes cells) }
    ensures some { (cells : List Cell) × HoldsPaid (reverse history.now) cells }
{
    let _ = history;
}

/// In a legal list each cell's net is below a million dollars.
pub fn net_is_small(history: &[Filing])
    requires { IsLegal (reverse history.now) }
    ensures { (c : Cell) → net_at (reverse history.now) c ≤ 99999999 }
{
    let _ = history;
}

/// In a legal list net money at a cell, of Pell or of another program, means that the cell's school has enrolled the
/// student in its term.
pub fn paid_is_enrolled(history: &[Filing])
    requires { IsLegal (reverse history.now) }
    ensures { (c : Cell) → 0 < net_at (reverse history.now) c → IsEnrolled history.now c }
{
    let _ = history;
}

/// In a legal list no more is sent back than withdrawals return, at any cells; and what they return was taken from the nets.
pub fn sent_is_returned(history: &[Filing])
    requires { IsLegal (reverse history.now) }
    ensures sent { (passes : Cell → Bool) → sent (reverse history.now) passes ≤ returned (reverse history.now) passes }
    ensures taken { (passes : Cell → Bool) → returned (reverse history.now) passes ≤ taken (reverse history.now) passes }
{
    let _ = history;
}

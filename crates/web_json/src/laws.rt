//! What follows from the definitions alone, said of no call. The functions do nothing.
ghost use Rattle.std.specs.Prelude.{◌≡◌, ℕ, true, Option, Some};
ghost use Rattle.aid_filings.specs.declared.filing.Filing.{Filing};
ghost use Rattle.aid_filings.specs.declared.reply.Outcome.{Outcome};
ghost use Rattle.aid_filings.specs.declared.reply.Response.{Response};
ghost use Rattle.web_json.specs.Bodies.{has_bodies, said};
ghost use Rattle.format_bytes.specs.Numbers.{kind_of};
ghost use Rattle.log_machine.specs.declared.reply.LogReply.{LogReply};
ghost use Rattle.web_session.specs.declared.status.Status.{Status};
ghost use Rattle.web_json.specs.Filings.{filing_with};
ghost use Rattle.web_json.specs.Forms.{status_for};

/// The numbers of a filing of which there are bodies give it back, so what a body asks is the filing that it says.
pub fn again()
    ensures { (filing : Filing) → has_bodies (kind_of filing.what) ≡ true → filing_with (said filing) ≡ Some filing }
{}

/// 503 is answered only for a fault of the disk.
pub fn disk_faults()
    ensures { (reply : LogReply Response) → status_for reply ≡ Status.Unavailable → (undecided : Option ℕ) × (reply ≡ LogReply.DiskFault undecided) }
{}

/// 201 is answered only where the ask's own filing is admitted.
pub fn admitted()
    ensures { (reply : LogReply Response) → status_for reply ≡ Status.Created → (outcome : Outcome) × (front : ℕ) × (reply ≡ LogReply.Answered (Response.Admit outcome) front) }
{}

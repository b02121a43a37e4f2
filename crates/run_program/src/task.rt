//! What is to be done, with all that was opened for it.
ghost use Rattle.std.specs.Prelude.{◌≡◌};

use aid_stamps::Stamp;
use law_funds::Policies;
use run_builds::AmendRequest;
use run_office::DeskInput;
use run_rules::RuleDeskInput;
use work_study::SchoolPolicies;

/// The policies of awards that are known: the aid office's by name, and the work-study desk's by school.
#[derive(Drop)]
pub struct KnownPolicies {
    pub office: Policies,
    pub schools: SchoolPolicies,
}

/// What is to be done, over disks, disks that are only read, inputs of desks, and ports from which connections come. What else a
/// task reads, the words and one input, it shares with the others.
#[derive(Drop)]
pub enum Task<D, B, F, P> {
    /// A run of the aid office.
    Office(D),
    /// A run of several desks of the aid office.
    OfficeDesks {
        disk: D,
        desks: Vec<DeskInput<F>>,
    },
    /// The server: so many connections of each port, filed under one stamp.
    Serve {
        disk: D,
        ports: Vec<P>,
        sessions: u32,
        stamp: Stamp,
    },
    /// A journal of version 1 is copied.
    Upgrade {
        source: B,
        target: D,
    },
    /// A journal is copied with corrections.
    Amend {
        source: B,
        target: D,
        request: AmendRequest,
    },
    /// A run of the loan desk.
    Loans(D),
    /// A run of several loan desks.
    LoanDesks {
        disk: D,
        desks: Vec<RuleDeskInput<F>>,
    },
    /// A run of the work-study desk.
    Work(D),
    /// A sheet of the aid office.
    Sheet(B),
    /// A text of the loan desk's list.
    LoanSheet(B),
    /// A text of the work-study desk's list.
    WorkSheet(B),
    /// Two journals are compared.
    Changes {
        old: B,
        new: B,
    },
    /// A run of the auditor.
    Audit,
}

impl<D, B, F, P> Task<D, B, F, P> {
    // Several desks of the aid office, with their disk.
    pub(crate) fn of_desks(disk: D, desks: Vec<DeskInput<F>>) -> Self
        ensures { result ≡ Task.OfficeDesks disk desks }
    {
        Task::OfficeDesks { disk, desks }
    }

    // The server, with its disk and ports.
    pub(crate) fn of_server(disk: D, ports: Vec<P>, sessions: u32, stamp: Stamp) -> Self
        ensures { result ≡ Task.Serve disk ports sessions stamp }
    {
        Task::Serve {
            disk,
            ports,
            sessions,
            stamp,
        }
    }

    // An amendment, with its disks.
    pub(crate) fn of_amendment(source: B, target: D, request: AmendRequest) -> Self
        ensures { result ≡ Task.Amend source target request }
    {
        Task::Amend {
            source,
            target,
            request,
        }
    }

    // Several loan desks, with their disk.
    pub(crate) fn of_loan_desks(disk: D, desks: Vec<RuleDeskInput<F>>) -> Self
        ensures { result ≡ Task.LoanDesks disk desks }
    {
        Task::LoanDesks { disk, desks }
    }
}

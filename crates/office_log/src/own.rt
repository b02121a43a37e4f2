// The filing that an ask may add.
use crate::OfficeMachine;
use aid_filings::Response;
use log_machine::SingleEntryMachine;

impl SingleEntryMachine for OfficeMachine {
    ghost use Rattle.office_history.specs.Answer.{is_admit};
    ghost use Rattle.office_log.specs.Submits.{filing_asked};
    ghost use Rattle.office_log.specs.OwnLaws.{own_added, adds_added};

    ghost own = { filing_asked };

    ghost adds = { is_admit };

    ghost own_added = { own_added };

    ghost adds_added = { adds_added };

    fn is_added(response: &Response) -> bool {
        matches!(response, Response::Admit(_))
    }
}

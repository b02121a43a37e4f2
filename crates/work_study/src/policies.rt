//! The policies of schools.
ghost use Rattle.std.specs.Prelude.{◌≡◌};

use aid_types::School;
use law_funds::Policy;

/// The policy of each school, in the order of a search.
#[derive(Drop)]
pub struct SchoolPolicies {
    pub list: Vec<(School, Policy)>,
}

impl SchoolPolicies {
    pub fn new(list: Vec<(School, Policy)>) -> SchoolPolicies
        ensures { result.list.items ≡ list.items }
    {
        SchoolPolicies { list }
    }
}

//! Applications of rules, in order of making.

use list_of::List;
pub use rule_match::Application;

/// Applications in order of making.
pub type Applications = List<Application>;

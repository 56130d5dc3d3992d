//! What does a domain's front keep when elements are glued to it?
//!
//! Definitions and laws alone: no call here computes anything. A front is the list of its lines as
//! directed edges with the unmeshed region on their left, an element the list of its corners.
//!
//! 1. An element may be glued where six conditions hold (specs/Gluing.antt). Then each of its sides
//!    that is a front line leaves, and each other side joins reversed.
//! 2. A front that is a region (specs/Region.antt: closed, without tangles, and winding 0 times or once
//!    round each point off its lines) stays one, whatever its domain's boundary is (law_region).
//! 3. The front before is the element's sides and the front after, as chains: winding numbers at every
//!    rational point and doubled areas add up, and the area falls (law_glue).
//! 4. A place off a region and off its lines is a corner of no further element (law_settled), and the
//!    ground of glued elements is spent (law_ground), so no point comes to hang.
//! 5. Gluing by numbers is gluing by places, and line numbers rise (law_numbers).
//! 6. The states of all domains conform (law_conform, law_foreign).
//! 7. A refused pair of base line and class stays refused as long as no witness leaves and no joined
//!    line opens a new attempt (law_refused), and by near lines alone (law_near, law_boxes).
#![tactic(auto)]

pub mod laws;

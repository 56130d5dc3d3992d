//! Texts of rules, for the tests.

/// A triangle with a new point, of the best quality, and a rule whose new point is far.
pub const FREE_AND_FAR: &[u8] = b"rule \"Free\"
mappoints (0, 0); (1, 0);
maplines (1, 2) del;
newpoints (0.5, 0.866) { 0.5 X2 } { };
newlines (1, 3); (3, 2);
freearea (0, 0); (1, 0) { 1 X2 } { }; (1.5, 0.7) { 0.5 X2 } { }; (0.5, 1.5) { 0.5 X2 } { }; (-0.5, 0.7) { 0.5 X2 } { };
freearea2 (0, 0); (1, 0) { 1 X2 } { }; (0.5, 0.866) { 0.5 X2 } { }; (0.5, 0.866) { 0.5 X2 } { }; (0.5, 0.866) { 0.5 X2 } { };
elements (1, 2, 3);
endrule
rule \"Far\"
mappoints (0, 0); (1, 0);
maplines (1, 2) del;
newpoints (0.5, 1.2) { 0.5 X2 } { };
newlines (1, 3); (3, 2);
freearea (0, 0); (1, 0) { 1 X2 } { }; (0.5, 0.1) { 0.5 X2 } { };
elements (1, 2, 3);
endrule
";

/// A rule whose new point is off the grid on a long line.
pub const PAST: &[u8] = b"rule \"Past\"
mappoints (0, 0); (1, 0);
maplines (1, 2) del;
newpoints (16, 16) { 16 X2 } { 16 X2 };
newlines (1, 3); (3, 2);
freearea (0, 0); (1, 0) { 1 X2 } { }; (0.5, 0.1) { 0.5 X2 } { };
elements (1, 2, 3);
endrule
";

/// One rule for each way to be inert.
pub const INERT: &[u8] = b"rule \"Unbalanced\"
mappoints (0, 0); (1, 0); (0.5, 0.866);
maplines (1, 2) del; (3, 1) del;
freearea (0, 0); (1, 0) { 1 X2 } { };
elements (1, 2, 3);
endrule
rule \"BaseKept\"
mappoints (0, 0); (1, 0);
maplines (1, 2);
endrule
rule \"NoElement\"
mappoints (0, 0); (1, 0);
maplines (1, 2) del;
newlines (1, 2);
endrule
rule \"IdlePoint\"
mappoints (0, 0); (1, 0);
maplines (1, 2) del;
newpoints (0.5, 0.8); (0.5, 0.9);
newlines (1, 3); (3, 2);
elements (1, 2, 3);
endrule
rule \"BadZone\"
mappoints (0, 0); (1, 0);
maplines (1, 2) del;
newpoints (0.5, 0.8);
newlines (1, 3); (3, 2);
freearea (0, 0); (1, 0); (0.5, 0.8);
freearea2 (0, 0); (1, 0);
elements (1, 2, 3);
endrule
";

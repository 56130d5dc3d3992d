//! Texts of rules, for the tests.

/// Two rules of a rule file.
pub const TWO: &[u8] = b"rule \"Free Triangle (1)\"
quality 1
mappoints
(0, 0); (1, 0);
maplines
(1, 2) del;
newpoints
(0.5, 0.866) { 0.5 X2 } { };
newlines
(1, 3); (3, 2);
freearea
(0, 0);
(1, 0) { 1 X2 } { };
(1.5, 0.7) { 0.5 X2 } { };
(0.5, 1.5) { 0.5 X2 } { };
(-0.5, 0.7) { 0.5 X2 } { };
freearea2
(0, 0);
(1, 0) { 1 X2 } { };
(0.5, 0.866) { 0.5 X2 } { };
(0.5, 0.866) { 0.5 X2 } { };
(0.5, 0.866) { 0.5 X2 } { };
elements
(1, 2, 3);
endrule

rule \"Left (6)\"
quality 6
mappoints
(0, 0); (1, 0); (0.5, 0.866) { 0.3, 0, 0.3 };
maplines
(1, 2) del; (3, 1) { 0.3, 0, 0.3 } del;
newlines
(3, 2);
freearea
(0, 0);
(1, 0) { 1 X2 } { };
(0.5, 0.866) { 1 X3 } { 1 Y3 };
elements
(1, 2, 3);
endrule
";

/// A rule in normal form.
pub const HALF: &[u8] = b"rule \"Half\"
quality 1
mappoints
(0, 0) { 1, 0, 1 };
(1, 0) { 1, 0, 1 };
(0.5, 0.866) { 1, 0, 1 };
maplines
(1, 2) { 1, 0, 1 } del;
(3, 1) { 1, 0, 1 } del;
freearea
(0, 0) { } { };
(1, 0) { 1 X2 } { };
(0.5, 0.866) { 1 X3 } { 1 Y3 };
elements
(1, 2, 3);
endrule
";

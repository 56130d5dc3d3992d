//! The text of the twelve rules, for the tests.

/// The twelve rules.
pub const TWELVE: &[u8] = b"rule \"Free Triangle (1)\"
quality 1
mappoints
(0, 0); (1, 0);
maplines
(1, 2) del;
newpoints
(0.5, 0.866) { 0.5 X2 } { };
newlines
(1, 3); (3, 2);
freearea
(0, 0);
(1, 0) { 1 X2 } { };
(1.5, 0.7) { 0.5 X2 } { };
(0.5, 1.5) { 0.5 X2 } { };
(-0.5, 0.7) { 0.5 X2 } { };
freearea2
(0, 0);
(1, 0) { 1 X2 } { };
(0.5, 0.866) { 0.5 X2 } { };
(0.5, 0.866) { 0.5 X2 } { };
(0.5, 0.866) { 0.5 X2 } { };
elements
(1, 2, 3);
endrule

rule \"Free Triangle (5)\"
quality 5
mappoints
(0, 0); (1, 0);
maplines
(1, 2) del;
newpoints
(0.5, 0.6) { 0.5 X2 } { };
newlines
(1, 3); (3, 2);
freearea
(0, 0);
(1, 0) { 1 X2 } { };
(0.9, 0.6) { 0.5 X2 } { };
(0.5, 0.9) { 0.5 X2 } { };
(0.1, 0.6) { 0.5 X2 } { };
freearea2
(0, 0);
(1, 0) { 1 X2 } { };
(0.5, 0.6) { 0.5 X2 } { };
(0.5, 0.6) { 0.5 X2 } { };
(0.5, 0.6) { 0.5 X2 } { };
elements
(1, 2, 3);
endrule

rule \"Free Triangle (9)\"
quality 9
mappoints
(0, 0); (1, 0);
maplines
(1, 2) del;
newpoints
(0.5, 0.35) { 0.5 X2 } { };
newlines
(1, 3); (3, 2);
freearea
(0, 0);
(1, 0) { 1 X2 } { };
(0.8, 0.3) { 0.5 X2 } { };
(0.5, 0.5) { 0.5 X2 } { };
(0.2, 0.3) { 0.5 X2 } { };
freearea2
(0, 0);
(1, 0) { 1 X2 } { };
(0.5, 0.35) { 0.5 X2 } { };
(0.5, 0.35) { 0.5 X2 } { };
(0.5, 0.35) { 0.5 X2 } { };
elements
(1, 2, 3);
endrule

rule \"Close\"
quality 1
mappoints
(0, 0); (1, 0); (0.5, 0.866);
maplines
(1, 2) del; (2, 3) del; (3, 1) del;
freearea
(0, 0);
(1, 0) { 1 X2 } { };
(0.5, 0.866) { 1 X3 } { 1 Y3 };
elements
(1, 2, 3);
endrule

rule \"Left\"
quality 1
mappoints
(0, 0); (1, 0); (0.5, 0.866);
maplines
(1, 2) del; (3, 1) del;
newlines
(3, 2);
freearea
(0, 0);
(1, 0) { 1 X2 } { };
(1.1, 0.75) { 0.5 X2, 0.5 X3 } { 0.5 Y3 };
(0.5, 0.866) { 1 X3 } { 1 Y3 };
freearea2
(0, 0);
(1, 0) { 1 X2 } { };
(0.75, 0.433) { 0.5 X2, 0.5 X3 } { 0.5 Y3 };
(0.5, 0.866) { 1 X3 } { 1 Y3 };
elements
(1, 2, 3);
endrule

rule \"Right\"
quality 1
mappoints
(0, 0); (1, 0); (0.5, 0.866);
maplines
(1, 2) del; (2, 3) del;
newlines
(1, 3);
freearea
(0, 0);
(1, 0) { 1 X2 } { };
(0.5, 0.866) { 1 X3 } { 1 Y3 };
(-0.1, 0.75) { 0.5 X3 } { 0.5 Y3 };
freearea2
(0, 0);
(1, 0) { 1 X2 } { };
(0.5, 0.866) { 1 X3 } { 1 Y3 };
(0.25, 0.433) { 0.5 X3 } { 0.5 Y3 };
elements
(1, 2, 3);
endrule

rule \"Point\"
quality 1
mappoints
(0, 0); (1, 0); (0.5, 0.866);
maplines
(1, 2) del;
newlines
(1, 3); (3, 2);
freearea
(0, 0);
(1, 0) { 1 X2 } { };
(1.1, 0.6) { 0.5 X2, 0.5 X3 } { 0.5 Y3 };
(0.5, 0.866) { 1 X3 } { 1 Y3 };
(-0.1, 0.6) { 0.5 X3 } { 0.5 Y3 };
freearea2
(0, 0);
(1, 0) { 1 X2 } { };
(0.75, 0.433) { 0.5 X2, 0.5 X3 } { 0.5 Y3 };
(0.5, 0.866) { 1 X3 } { 1 Y3 };
(0.25, 0.433) { 0.5 X3 } { 0.5 Y3 };
elements
(1, 2, 3);
endrule

rule \"Two at the left\"
quality 1
mappoints
(0, 0); (1, 0); (-0.5, 0.866);
maplines
(1, 2) del; (3, 1) del;
newpoints
(0.5, 0.866) { 0.5 X2, 0.5 X3 } { 0.5 Y3 };
newlines
(4, 2); (3, 4);
freearea
(0, 0);
(1, 0) { 1 X2 } { };
(1.4, 0.9) { 0.5 X2, 0.5 X3 } { 0.5 Y3 };
(0.5, 1.6) { 0.5 X2, 0.5 X3 } { 0.5 Y3 };
(-0.5, 0.866) { 1 X3 } { 1 Y3 };
freearea2
(0, 0);
(1, 0) { 1 X2 } { };
(0.5, 0.866) { 0.5 X2, 0.5 X3 } { 0.5 Y3 };
(0.5, 0.866) { 0.5 X2, 0.5 X3 } { 0.5 Y3 };
(-0.5, 0.866) { 1 X3 } { 1 Y3 };
elements
(1, 2, 4); (1, 4, 3);
endrule

rule \"Two at the right\"
quality 1
mappoints
(0, 0); (1, 0); (1.5, 0.866);
maplines
(1, 2) del; (2, 3) del;
newpoints
(0.5, 0.866) { 0.5 X3 } { 0.5 Y3 };
newlines
(1, 4); (4, 3);
freearea
(0, 0);
(1, 0) { 1 X2 } { };
(1.5, 0.866) { 1 X3 } { 1 Y3 };
(0.5, 1.6) { 0.5 X3 } { 0.5 Y3 };
(-0.4, 0.9) { 0.5 X3 } { 0.5 Y3 };
freearea2
(0, 0);
(1, 0) { 1 X2 } { };
(1.5, 0.866) { 1 X3 } { 1 Y3 };
(0.5, 0.866) { 0.5 X3 } { 0.5 Y3 };
(0.5, 0.866) { 0.5 X3 } { 0.5 Y3 };
elements
(1, 2, 4); (2, 3, 4);
endrule

rule \"Left (6)\"
quality 6
mappoints
(0, 0); (1, 0); (0.5, 0.866) { 0.3, 0, 0.3 };
maplines
(1, 2) del; (3, 1) { 0.3, 0, 0.3 } del;
newlines
(3, 2);
freearea
(0, 0);
(1, 0) { 1 X2 } { };
(0.5, 0.866) { 1 X3 } { 1 Y3 };
elements
(1, 2, 3);
endrule

rule \"Right (6)\"
quality 6
mappoints
(0, 0); (1, 0); (0.5, 0.866) { 0.3, 0, 0.3 };
maplines
(1, 2) del; (2, 3) { 0.3, 0, 0.3 } del;
newlines
(1, 3);
freearea
(0, 0);
(1, 0) { 1 X2 } { };
(0.5, 0.866) { 1 X3 } { 1 Y3 };
elements
(1, 2, 3);
endrule

rule \"Any point\"
quality 8
mappoints
(0, 0); (1, 0); (0.5, 0.866) { 0.05, 0, 0.05 };
maplines
(1, 2) del;
newlines
(1, 3); (3, 2);
freearea
(0, 0);
(1, 0) { 1 X2 } { };
(0.5, 0.866) { 1 X3 } { 1 Y3 };
elements
(1, 2, 3);
endrule
";

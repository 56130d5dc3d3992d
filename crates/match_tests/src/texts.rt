// Rules of the enumeration's tests, in words of places where a side of length 640000 has length 1.

/// Ties: the third point of the first two rules may be any front point, so each has several candidates, and each
/// application of the second is one of the first. The third is of greater quality.
pub const TIES: &[u8] = b"rule \"Loose\"
mappoints (0, 0); (1, 0); (0.5, 0.866) { 0, 0, 0 };
maplines (1, 2) del;
newlines (1, 3); (3, 2);
freearea (0, 0); (1, 0) { 1 X2 } { 1 Y2 }; (0.5, 0.866) { 1 X3 } { 1 Y3 };
elements (1, 2, 3);
endrule
rule \"Twin\"
mappoints (0, 0); (1, 0); (0.5, 0.866) { 0, 0, 0 };
maplines (1, 2) del;
newlines (1, 3); (3, 2);
freearea (0, 0); (1, 0) { 1 X2 } { 1 Y2 }; (0.5, 0.866) { 1 X3 } { 1 Y3 };
elements (1, 2, 3);
endrule
rule \"New\"
quality 2
mappoints (0, 0); (1, 0);
maplines (1, 2) del;
newpoints (0.5, 0.866) { 0.5 X2 } { };
newlines (1, 3); (3, 2);
freearea (0, 0); (1, 0) { 1 X2 } { }; (0.5, 0.866) { 0.5 X2 } { };
elements (1, 2, 3);
endrule
";

/// Tolerances at their edge: over a side of the square the third point is 1 below its place, which weighs 0.8 in the
/// last rule, as much as class 1 allows, and 0.8001 in the second. The first wants a point left of a side's end.
pub const EDGES: &[u8] = b"rule \"Turn\"
mappoints (0, 0); (1, 0); (1, 1); (0, 1);
maplines (1, 2) del; (2, 3) del; (3, 4) del; (4, 1) del;
freearea (0, 0); (1, 0) { 1 X2 } { 1 Y2 }; (1, 1) { 1 X3 } { 1 Y3 }; (0, 1) { 1 X4 } { 1 Y4 };
elements (1, 2, 3); (1, 3, 4);
orientations (1, 2, 3); (2, 3, 3);
endrule
rule \"Past\"
mappoints (0, 0); (1, 0); (0, 2) { 1, 0, 0.8001 };
maplines (1, 2) del; (3, 1) del { 0, 0, 0 };
newlines (3, 2);
freearea (0, 0); (1, 0) { 1 X2 } { 1 Y2 }; (0, 2) { 1 X3 } { 1 Y3 };
elements (1, 2, 3);
endrule
rule \"At\"
mappoints (0, 0); (1, 0); (1, 2) { 1, 0, 0.8 };
maplines (1, 2) del; (2, 3) del { 0, 0, 0 };
newlines (1, 3);
freearea (0, 0); (1, 0) { 1 X2 } { 1 Y2 }; (1, 2) { 1 X3 } { 1 Y3 };
elements (1, 2, 3);
endrule
";

/// Loose starts: a front line anywhere across the base, and a point anywhere.
pub const LOOSE: &[u8] = b"rule \"Across\"
mappoints (0, 0); (1, 0); (1, 1) { 0, 0, 0 }; (0, 1) { 0, 0, 0 };
maplines (1, 2) del; (3, 4) del { 0, 0, 0 };
newlines (3, 2); (1, 4);
freearea (0, 0); (1, 0) { 1 X2 } { 1 Y2 }; (1, 1) { 1 X3 } { 1 Y3 }; (0, 1) { 1 X4 } { 1 Y4 };
elements (1, 2, 3); (1, 3, 4);
endrule
rule \"Any\"
quality 2
mappoints (0, 0); (1, 0); (0.5, 1) { 0, 0, 0 };
maplines (1, 2) del;
newlines (1, 3); (3, 2);
freearea (0, 0); (1, 0) { 1 X2 } { 1 Y2 }; (0.5, 1) { 1 X3 } { 1 Y3 };
elements (1, 2, 3);
endrule
";

/// Rules of three points alone: a corner below its place, within its tolerance or past it, one with a front line that
/// leads to it, and a point anywhere.
pub const THREE: &[u8] = b"rule \"Past\"
mappoints (0, 0); (1, 0); (0, 2) { 1, 0, 0.8001 };
maplines (1, 2) del; (3, 1) del { 0, 0, 0 };
newlines (3, 2);
freearea (0, 0); (1, 0) { 1 X2 } { 1 Y2 }; (0, 2) { 1 X3 } { 1 Y3 };
elements (1, 2, 3);
endrule
rule \"Above\"
mappoints (0, 0); (1, 0); (0.5, 1) { 1, 0, 1 };
maplines (1, 2) del;
newlines (1, 3); (3, 2);
freearea (0, 0); (1, 0) { 1 X2 } { 1 Y2 }; (1.2, 1.4) { 1 X3 } { 1 Y3 }; (-0.2, 1.4) { 1 X3 } { 1 Y3 };
elements (1, 2, 3);
endrule
rule \"Beside\"
quality 2
mappoints (0, 0); (1, 0); (1.5, 0.5) { 0.5, 0, 0.5 };
maplines (1, 2) del;
newpoints (0.5, 0.4) { 0.5 X2 } { };
newlines (1, 4); (4, 3); (3, 2);
freearea (0, 0); (1, 0) { 1 X2 } { }; (1.5, 0.5) { 1 X3 } { 1 Y3 }; (0.5, 0.8) { 0.5 X2 } { };
elements (1, 2, 4); (4, 2, 3);
endrule
";

/// A rule of four points whose third and fourth are nowhere: so narrow are its tolerances.
pub const NOWHERE: &[u8] = b"rule \"Nowhere\"
mappoints (0, 0); (1, 0); (2.37, 3.11) { 999, 0, 999 }; (0.23, 2.71) { 999, 0, 999 };
maplines (1, 2) del;
newlines (1, 4); (4, 3); (3, 2);
freearea (0, 0); (1, 0) { 1 X2 } { 1 Y2 }; (2.37, 3.11) { 1 X3 } { 1 Y3 }; (0.23, 2.71) { 1 X4 } { 1 Y4 };
elements (1, 2, 3); (1, 3, 4);
endrule
";

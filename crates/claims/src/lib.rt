// What is claimed of the calls, and proved of whatever meets their contracts: demands 1 and 2, demand 3 (plain) and the twelve rows (theory), for the
// entries for C too; the refusals of calls as a table; that promises fix results, and what the demands exclude; and of the changes of document 02: the
// numbers from before 30 and 31, that the classes are nested, the one pass over a history, that books without a homing step, and those without a
// transfer, give what they gave, arcs by name, command 54, and what taking a run back does, and leaves as it was. This crate has no code; `demands` has
// the demands, the nested classes, the names of arcs, the reading of one more step and a take-back as contracts.
#![tactic(auto)]

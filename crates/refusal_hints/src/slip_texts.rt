// Sentences that are said at more than one place.

pub(crate) const COMMENT: &str = "a comment begins with -- and goes to the end of its line";

pub(crate) const BRACES: &str =
    "there are no braces: words end an IF .. THEN .. ENDIF; and a WHILE .. DO .. ENDLOOP; and a comment begins with --";

pub(crate) const UNEQUAL: &str = "unequal is written #";

pub(crate) const EQUAL: &str = "equal is written =, and := assigns";

pub(crate) const CALL: &str = "a procedure is called by CALL: CALL p(..); or CALL p(..) INTO x;";

pub(crate) const CALL_IN_EXPRESSION: &str =
    "a call is no part of an expression: CALL p(..) INTO x; and then take x";

pub(crate) const FOREIGN_MEMBER: &str =
    "a monitor's variables are reached from its own procedures alone: write an ENTRY PROCEDURE, and CALL it";

pub(crate) const INCREMENT: &str = "there is no ++ and no +=: x := x + 1;";

pub(crate) const LAST_END: &str =
    "the last END, that of MAIN, has a . behind it, and each other one a ;";

pub(crate) const NO_VALUE: &str =
    "a declaration gives no value: a variable begins as 0 or FALSE, and a statement assigns to it";

pub(crate) const ONE_COMPARISON: &str = "a comparison has two sides: a < b AND b < c";

pub(crate) const PLAIN_ARRAY: &str = "an array has its number of elements: ARRAY 10 OF INTEGER";

pub(crate) const NO_OPEN_IF: &str =
    "no IF and no WHILE is open here that could end or have an ELSE";

pub(crate) const THEN_AND_DO: &str = "an IF has THEN, and a WHILE has DO";

pub(crate) const TYPES: &str =
    "the types are INTEGER, BOOLEAN and PROCESS, and of variables of monitors also CONDITION and ARRAY 10 OF INTEGER";

pub(crate) const UNENDED: &str =
    "what stands before has no end: END; or ENDIF; or ENDLOOP; is missing";

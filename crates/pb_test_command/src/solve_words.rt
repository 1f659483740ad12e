//! The words of `solve`.
use crate::words::compare;

// Options may stand anywhere after the command. Those that aren't given have their defaults. A line
// has the row, the workers, the weight, the budget, the lot, the blocks, the pattern database, the
// engine, the effort for tables, the file of tables, `--plain`, `--swamp`, the grounding and the
// names of certificate and journal. With `--falling` the number of steps stands before it.
const COMMANDS: &str = "\
> solve grid m --row 1000000 s --budget=1099511627776 --lot 1 --blocks=4096 --cert c \
--workers 64 --swamp --num=1000 --plain --den 999 --trace=t --pattern 12 --engine pbnf
solve grid m s: 1000000 64 1000/999 1099511627776 1 4096 12 pbnf None None true true all \
Some(\"c\") Some(\"t\")
> solve tiles --row 7 b --budget=1 --cert c
solve tiles b: 7 1 1/1 1 256 256 0 pbnf None None false false all Some(\"c\") None
> solve strips d --row 7 p --blocks=16 --lot 1 --cert c
solve strips d p: 7 1 1/1 16777216 1 16 0 pbnf None None false false all Some(\"c\") None
> solve grid m s
solve grid m s: 0 1 1/1 16777216 256 256 0 pbnf None None false false all None None
> solve grid m s --lot 1
solve grid m s: 0 1 1/1 16777216 1 256 0 pbnf None None false false all None None
> solve grid m s --lot=1048576
solve grid m s: 0 1 1/1 16777216 1048576 256 0 pbnf None None false false all None None
> solve tiles b --blocks 16
solve tiles b: 0 1 1/1 16777216 256 16 0 pbnf None None false false all None None
> solve tiles --blocks=4096 b
solve tiles b: 0 1 1/1 16777216 256 4096 0 pbnf None None false false all None None
> solve tiles --blocks=17 b --lot=2
solve tiles b: 0 1 1/1 16777216 2 17 0 pbnf None None false false all None None
> solve tiles --pattern=3 b
solve tiles b: 0 1 1/1 16777216 256 256 3 pbnf None None false false all None None
> solve strips d --pattern 0 p
solve strips d p: 0 1 1/1 16777216 256 256 0 pbnf None None false false all None None
> solve tiles b --engine hda
solve tiles b: 0 1 1/1 16777216 256 256 0 hda None None false false all None None
> solve --engine=hda grid m s --cert c --workers 4
solve grid m s: 0 4 1/1 16777216 256 256 0 hda None None false false all Some(\"c\") None
> solve strips --engine pbnf d p --trace j
solve strips d p: 0 1 1/1 16777216 256 256 0 pbnf None None false false all None Some(\"j\")
> solve tiles b --falling 1
falling 1 solve tiles b: 0 1 1/1 16777216 256 256 0 pbnf None None false false all None None
> solve --falling=20 grid m --num 3 s --cert c --swamp
falling 20 solve grid m s: 0 1 3/1 16777216 256 256 0 pbnf None None false true all Some(\"c\") None
> solve strips d --engine pbnf --falling +07 p --workers 4 --plain
falling 7 solve strips d p: 0 4 1/1 16777216 256 256 0 pbnf None None true false all None None
> solve strips d p --reachable
solve strips d p: 0 1 1/1 16777216 256 256 0 pbnf None None false false reachable None None
> solve --reachable strips --plain d --pattern 3 --engine=hda p --swamp
solve strips d p: 0 1 1/1 16777216 256 256 3 hda None None true true reachable None None
> solve grid --falling 2 m s --reachable --cert c
falling 2 solve grid m s: 0 1 1/1 16777216 256 256 0 pbnf None None false false reachable \
Some(\"c\") None
> solve strips d p --estimate tables
solve strips d p: 0 1 1/1 16777216 256 256 0 pbnf Some(10) None false false all None None
> solve --effort 1 strips d --estimate=tables p --pattern 0 --engine hda
solve strips d p: 0 1 1/1 16777216 256 256 0 hda Some(1) None false false all None None
> solve strips --estimate tables d p --cert c --effort=20 --trace j --reachable
solve strips d p: 0 1 1/1 16777216 256 256 0 pbnf Some(20) None false false reachable Some(\"c\") \
Some(\"j\")
> solve grid m s --estimate tables --effort +07
solve grid m s: 0 1 1/1 16777216 256 256 0 pbnf Some(7) None false false all None None
> solve tiles b --estimate tables
solve tiles b: 0 1 1/1 16777216 256 256 0 pbnf Some(10) None false false all None None
> solve strips d p --effort 5
solve strips d p: 0 1 1/1 16777216 256 256 0 pbnf None None false false all None None
> solve tiles b --effort 20 --pattern 3
solve tiles b: 0 1 1/1 16777216 256 256 3 pbnf None None false false all None None
> solve strips --falling 3 d p --effort 2 --num 5 --estimate tables
falling 3 solve strips d p: 0 1 5/1 16777216 256 256 0 pbnf Some(2) None false false all None None
> solve strips d p --tables t
solve strips d p: 0 1 1/1 16777216 256 256 0 pbnf None Some(\"t\") false false all None None
> solve --tables=t strips d --pattern 0 p --engine hda
solve strips d p: 0 1 1/1 16777216 256 256 0 hda None Some(\"t\") false false all None None
> solve strips d p --effort 3 --tables t
solve strips d p: 0 1 1/1 16777216 256 256 0 pbnf None Some(\"t\") false false all None None
> solve grid m --tables t s
solve grid m s: 0 1 1/1 16777216 256 256 0 pbnf None Some(\"t\") false false all None None
> solve tiles b --tables= --cert c
solve tiles b: 0 1 1/1 16777216 256 256 0 pbnf None Some(\"\") false false all Some(\"c\") None
> solve strips --falling 2 d --tables tables p --reachable
falling 2 solve strips d p: 0 1 1/1 16777216 256 256 0 pbnf None Some(\"tables\") false false \
reachable None None
";

// The words are tested in a fixed order. The first test that fails gives the answer.
const REFUSALS: &str = "\
> solve grid m
Files
words files
> solve tiles b s
Files
words files
> solve strips d
Files
words files
> solve tiles b --row 1000001
Form
error: invalid value '1000001' for '--row <row>': 1000001 is not in 0..=1000000
> solve maze m
Kind
error: invalid value 'maze' for '<KIND>'
  [possible values: grid, tiles, strips]

Usage: solve [OPTIONS] <KIND> <FIRST_FILE> [SECOND_FILE]
> solve grid m s --row 1000001
Form
error: invalid value '1000001' for '--row <row>': 1000001 is not in 0..=1000000
> solve grid m s --budget 0
Form
error: invalid value '0' for '--budget <budget>': 0 is not in 1..=1099511627776
> solve grid m s --lot 0
Form
error: invalid value '0' for '--lot <lot>': 0 is not in 1..=1048576
> solve grid m s --lot 1048577
Form
error: invalid value '1048577' for '--lot <lot>': 1048577 is not in 1..=1048576
> solve tiles b --blocks 15
Form
error: invalid value '15' for '--blocks <blocks>': 15 is not in 16..=4096
> solve tiles b --blocks 4097
Form
error: invalid value '4097' for '--blocks <blocks>': 4097 is not in 16..=4096
> solve strips d p --pattern 13
Form
error: invalid value '13' for '--pattern <pattern>': 13 is not in 0..=12
> solve tiles b --lot many
Form
error: invalid value 'many' for '--lot <lot>': invalid digit found in string
> solve tiles b --blocks=
Form
error: invalid value '' for '--blocks <blocks>': cannot parse integer from empty string
> solve tiles b --lot
Form
error: a value is required for '--lot <lot>' but none was supplied
> solve grid m s --help
Form
error: unexpected argument '--help' found

  tip: to pass '--help' as a value, use '-- --help'

Usage: solve <KIND> <FIRST_FILE> <SECOND_FILE>
> solve grid m s --num 1 --den 2
Weight
words weight
> solve tiles b --den 2 --cert c --trace c
Weight
words weight
> solve tiles b --cert c --trace c
Names
words names
> solve tiles b --engine hda --trace j
Engine
words engine
> solve --trace j grid m --engine=hda s --cert c
Engine
words engine
> solve tiles b --engine hda --cert j --trace j
Names
words names
> solve tiles b --engine hda --trace j --den 2
Weight
words weight
> solve grid m --engine hda --trace j
Files
words files
> solve tiles b --engine other
Form
error: invalid value 'other' for '--engine <engine>'
  [possible values: pbnf, hda]

Usage: solve [OPTIONS] <KIND> <FIRST_FILE> [SECOND_FILE]
> solve maze b --engine hdas
Form
error: invalid value 'hdas' for '--engine <engine>'
  [possible values: pbnf, hda]

Usage: solve [OPTIONS] <KIND> <FIRST_FILE> [SECOND_FILE]
> solve tiles b --engine=
Form
error: invalid value '' for '--engine <engine>'
  [possible values: pbnf, hda]

Usage: solve [OPTIONS] <KIND> <FIRST_FILE> [SECOND_FILE]
> solve tiles b --engine
Form
error: a value is required for '--engine <engine>' but none was supplied
> solve tiles b --engine hda --engine pbnf
Form
error: the argument '--engine <engine>' cannot be used multiple times

Usage: solve [OPTIONS] <KIND> <FIRST_FILE> [SECOND_FILE]
> solve tiles b --falling 2 --engine hda
Engine
words engine
> solve --engine=hda grid m s --falling=20 --cert c
Engine
words engine
> solve tiles b --falling 2 --trace j
Falling
words falling
> solve grid m --trace=j --falling=20 s --cert c
Falling
words falling
> solve tiles b --engine hda --falling 2 --trace j
Engine
words engine
> solve tiles b --falling 2 --cert j --trace j
Names
words names
> solve tiles b --falling 2 --cert j --trace j --den 2
Weight
words weight
> solve grid m --falling 2 --trace j
Files
words files
> solve tiles b --falling 0
Form
error: invalid value '0' for '--falling <falling>': 0 is not in 1..=20
> solve grid m s --falling=21 --trace j
Form
error: invalid value '21' for '--falling <falling>': 21 is not in 1..=20
> solve tiles b --falling few
Form
error: invalid value 'few' for '--falling <falling>': invalid digit found in string
> solve tiles b --falling
Form
error: a value is required for '--falling <falling>' but none was supplied
> solve tiles b --falling 2 --falling 2
Form
error: the argument '--falling <falling>' cannot be used multiple times

Usage: solve [OPTIONS] <KIND> <FIRST_FILE> [SECOND_FILE]
> solve strips d p --estimate tables --pattern 1
Estimate
words estimate
> solve --pattern=12 grid m --effort 5 s --estimate=tables --cert c
Estimate
words estimate
> solve tiles b --estimate tables --pattern 3 --trace j
Estimate
words estimate
> solve strips d p --falling 2 --pattern 3 --estimate tables
Estimate
words estimate
> solve tiles b --falling 2 --trace j --pattern 3 --estimate tables
Falling
words falling
> solve tiles b --engine hda --falling 2 --pattern 3 --estimate tables
Engine
words engine
> solve tiles b --cert j --trace j --pattern 3 --estimate tables
Names
words names
> solve tiles b --den 2 --pattern 3 --estimate tables
Weight
words weight
> solve strips d --pattern 3 --estimate tables
Files
words files
> solve strips d p --tables t --pattern 1
Estimate
words estimate
> solve --pattern=12 grid m s --tables=t --effort 3
Estimate
words estimate
> solve strips d p --estimate tables --tables t
Estimate
words estimate
> solve tiles --tables t b --pattern 0 --estimate=tables
Estimate
words estimate
> solve strips d p --tables t --falling 2 --pattern 3
Estimate
words estimate
> solve tiles b --falling 2 --trace j --tables t --estimate tables
Falling
words falling
> solve tiles b --tables t --engine hda --trace j --pattern 3
Engine
words engine
> solve tiles b --cert j --trace j --pattern 3 --tables t
Names
words names
> solve strips d p --estimate table
Form
error: invalid value 'table' for '--estimate <estimate>'
  [possible values: tables]

Usage: solve [OPTIONS] <KIND> <FIRST_FILE> [SECOND_FILE]
> solve maze b --estimate=
Form
error: invalid value '' for '--estimate <estimate>'
  [possible values: tables]

Usage: solve [OPTIONS] <KIND> <FIRST_FILE> [SECOND_FILE]
> solve tiles b --estimate other --engine hda
Form
error: invalid value 'other' for '--estimate <estimate>'
  [possible values: tables]

Usage: solve [OPTIONS] <KIND> <FIRST_FILE> [SECOND_FILE]
> solve tiles b --engine other --estimate tables
Form
error: invalid value 'other' for '--engine <engine>'
  [possible values: pbnf, hda]

Usage: solve [OPTIONS] <KIND> <FIRST_FILE> [SECOND_FILE]
> solve tiles b --engine other --estimate none
Form
error: invalid value 'other' for '--engine <engine>'
  [possible values: pbnf, hda]

Usage: solve [OPTIONS] <KIND> <FIRST_FILE> [SECOND_FILE]
> solve tiles --estimate none b --engine other
Form
error: invalid value 'none' for '--estimate <estimate>'
  [possible values: tables]

Usage: solve [OPTIONS] <KIND> <FIRST_FILE> [SECOND_FILE]
> solve tiles b --estimate
Form
error: a value is required for '--estimate <estimate>' but none was supplied
> solve strips d p --estimate tables --estimate tables
Form
error: the argument '--estimate <estimate>' cannot be used multiple times

Usage: solve [OPTIONS] <KIND> <FIRST_FILE> [SECOND_FILE]
> solve strips d p --estimate tables --effort 0
Form
error: invalid value '0' for '--effort <effort>': 0 is not in 1..=20
> solve strips d p --effort=21
Form
error: invalid value '21' for '--effort <effort>': 21 is not in 1..=20
> solve strips d p --estimate tables --effort much
Form
error: invalid value 'much' for '--effort <effort>': invalid digit found in string
> solve strips d p --effort 2 --estimate tables --effort 2
Form
error: the argument '--effort <effort>' cannot be used multiple times

Usage: solve [OPTIONS] <KIND> <FIRST_FILE> [SECOND_FILE]
> solve strips d p --tables t --tables t
Form
error: the argument '--tables <tables>' cannot be used multiple times

Usage: solve [OPTIONS] <KIND> <FIRST_FILE> [SECOND_FILE]
> solve strips d p --tables
Form
error: a value is required for '--tables <tables>' but none was supplied
> solve strips d p --tables t --estimate other
Form
error: invalid value 'other' for '--estimate <estimate>'
  [possible values: tables]

Usage: solve [OPTIONS] <KIND> <FIRST_FILE> [SECOND_FILE]
> solve grid m --den 2
Files
words files
> solve grid m s --workers 0
Form
error: invalid value '0' for '--workers <workers>': 0 is not in 1..=64
> solve grid m s --num 0
Form
error: invalid value '0' for '--num <num>': 0 is not in 1..=1000
> solve grid m s --den 1001
Form
error: invalid value '1001' for '--den <den>': 1001 is not in 1..=1000
> solve tiles b --num 2 --num 3
Form
error: the argument '--num <num>' cannot be used multiple times

Usage: solve [OPTIONS] <KIND> <FIRST_FILE> [SECOND_FILE]
> solve tiles b --plain --plain
Form
error: the argument '--plain' cannot be used multiple times

Usage: solve [OPTIONS] <KIND> <FIRST_FILE> [SECOND_FILE]
> solve tiles b --plain=yes
Form
error: unexpected value 'yes' for '--plain' found; no more were expected

Usage: solve --plain <KIND> <FIRST_FILE> [SECOND_FILE]
> solve strips d p --reachable --reachable
Form
error: the argument '--reachable' cannot be used multiple times

Usage: solve [OPTIONS] <KIND> <FIRST_FILE> [SECOND_FILE]
> solve tiles b --reachable=yes
Form
error: unexpected value 'yes' for '--reachable' found; no more were expected

Usage: solve --reachable <KIND> <FIRST_FILE> [SECOND_FILE]
> solve strips d --reachable
Files
words files
";

#[test]
fn words_of_solve_have_their_answers(rt: HostRuntime) {
    compare(&rt, rt.alloc(), COMMANDS);
    compare(&rt, rt.alloc(), REFUSALS);
}

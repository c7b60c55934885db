//! The grammar of packages as code holds it.
ghost use Rattle.ag_aadl.specs.Grammar.{aadl};

use crate::declarations::BODY_SECTIONS_LINES;
use crate::declarations::CATEGORY_LINES;
use crate::declarations::COMPONENT_LINES;
use crate::declarations::DECLARATIONS_LINES;
use crate::declarations::FRAME_OR_BODY_LINES;
use crate::declarations::FRAME_SECTIONS_LINES;
use crate::declarations::MORE_IMPORTS_LINES;
use crate::declarations::MORE_NAMES_LINES;
use crate::declarations::PACKAGE_PROPERTIES_LINES;
use crate::declarations::PACKAGE_UNIT_LINES;
use crate::declarations::PACKAGES_LINES;
use crate::declarations::PNAME_LINES;
use crate::declarations::WITHS_LINES;
use crate::foreign::BEHIND_BODY_LINES;
use crate::foreign::BEHIND_COLONS_LINES;
use crate::foreign::BEHIND_DOT_LINES;
use crate::foreign::BEHIND_END_LINES;
use crate::foreign::BEHIND_NAME_LINES;
use crate::foreign::BRACKET_LINES;
use crate::foreign::FOREIGN_LINES;
use crate::nonterminals::ANNEX;
use crate::nonterminals::BEHIND_COLONS;
use crate::nonterminals::BEHIND_DOT;
use crate::nonterminals::BEHIND_END;
use crate::nonterminals::BEHIND_NAME;
use crate::nonterminals::BODY_SECTIONS;
use crate::nonterminals::BRACES;
use crate::nonterminals::BRACKET;
use crate::nonterminals::CATEGORY;
use crate::nonterminals::COMPONENT;
use crate::nonterminals::CONNECTIONS;
use crate::nonterminals::DATA_PORT;
use crate::nonterminals::DECLARATIONS;
use crate::nonterminals::DIRECTION;
use crate::nonterminals::EVENT_PORT;
use crate::nonterminals::FEATURE;
use crate::nonterminals::FEATURE_ITEMS;
use crate::nonterminals::FEATURE_LIST;
use crate::nonterminals::FEATURES;
use crate::nonterminals::FLOWS;
use crate::nonterminals::FOREIGN;
use crate::nonterminals::FRAME_OR_BODY;
use crate::nonterminals::FRAME_SECTIONS;
use crate::nonterminals::GROUP;
use crate::nonterminals::INSIDE;
use crate::nonterminals::MORE_IMPORTS;
use crate::nonterminals::MORE_NAMES;
use crate::nonterminals::OTHER;
use crate::nonterminals::PACKAGE_PROPERTIES;
use crate::nonterminals::PACKAGE_UNIT;
use crate::nonterminals::PACKAGES;
use crate::nonterminals::PLACE;
use crate::nonterminals::PLAIN;
use crate::nonterminals::PNAME;
use crate::nonterminals::PORT;
use crate::nonterminals::PROPERTIES;
use crate::nonterminals::QUIET;
use crate::nonterminals::SKIP;
use crate::nonterminals::SKIPPED_ITEMS;
use crate::nonterminals::SKIPPED_LIST;
use crate::nonterminals::SOME_BODY;
use crate::nonterminals::SOME_BRACES;
use crate::nonterminals::SOME_CLASS;
use crate::nonterminals::SOME_PORT;
use crate::nonterminals::SUB;
use crate::nonterminals::SUB_CATEGORY;
use crate::nonterminals::SUB_ITEMS;
use crate::nonterminals::SUB_LIST;
use crate::nonterminals::SUBCOMPONENTS;
use crate::nonterminals::WIRE;
use crate::nonterminals::WIRE_ITEMS;
use crate::nonterminals::WIRE_LIST;
use crate::nonterminals::WITHS;
use crate::sections::ANNEX_LINES;
use crate::sections::CONNECTIONS_LINES;
use crate::sections::DATA_PORT_LINES;
use crate::sections::DIRECTION_LINES;
use crate::sections::EVENT_PORT_LINES;
use crate::sections::FEATURE_ITEMS_LINES;
use crate::sections::FEATURE_LINES;
use crate::sections::FEATURE_LIST_LINES;
use crate::sections::FEATURES_LINES;
use crate::sections::FLOWS_LINES;
use crate::sections::PLACE_LINES;
use crate::sections::PORT_LINES;
use crate::sections::PROPERTIES_LINES;
use crate::sections::SKIPPED_ITEMS_LINES;
use crate::sections::SKIPPED_LIST_LINES;
use crate::sections::SOME_BODY_LINES;
use crate::sections::SOME_BRACES_LINES;
use crate::sections::SOME_CLASS_LINES;
use crate::sections::SOME_PORT_LINES;
use crate::sections::SUB_CATEGORY_LINES;
use crate::sections::SUB_ITEMS_LINES;
use crate::sections::SUB_LINES;
use crate::sections::SUB_LIST_LINES;
use crate::sections::SUBCOMPONENTS_LINES;
use crate::sections::WIRE_ITEMS_LINES;
use crate::sections::WIRE_LINES;
use crate::sections::WIRE_LIST_LINES;
use crate::tokens::BRACES_LINES;
use crate::tokens::GROUP_LINES;
use crate::tokens::INSIDE_LINES;
use crate::tokens::OTHER_LINES;
use crate::tokens::PLAIN_LINES;
use crate::tokens::QUIET_LINES;
use crate::tokens::SKIP_LINES;
use ag_grammar::Grammar;
use ag_grammar::Production;

const NONTERMINALS: u8 = 54;

/// The grammar of packages.
pub struct Packages;

impl Grammar for Packages {
    ghost plain = { λ _. aadl };

    fn start(&self) -> u8 {
        PACKAGES
    }

    fn productions(&self, nonterminal: u8) -> &'static [Production<'static>] {
        if nonterminal >= NONTERMINALS {
            return &[];
        }
        match nonterminal {
            PACKAGES => PACKAGES_LINES,
            PACKAGE_UNIT => PACKAGE_UNIT_LINES,
            PNAME => PNAME_LINES,
            MORE_NAMES => MORE_NAMES_LINES,
            WITHS => WITHS_LINES,
            MORE_IMPORTS => MORE_IMPORTS_LINES,
            DECLARATIONS => DECLARATIONS_LINES,
            PACKAGE_PROPERTIES => PACKAGE_PROPERTIES_LINES,
            CATEGORY => CATEGORY_LINES,
            COMPONENT => COMPONENT_LINES,
            FRAME_OR_BODY => FRAME_OR_BODY_LINES,
            FRAME_SECTIONS => FRAME_SECTIONS_LINES,
            BODY_SECTIONS => BODY_SECTIONS_LINES,
            FEATURES => FEATURES_LINES,
            FEATURE_LIST => FEATURE_LIST_LINES,
            FEATURE_ITEMS => FEATURE_ITEMS_LINES,
            FEATURE => FEATURE_LINES,
            DIRECTION => DIRECTION_LINES,
            PORT => PORT_LINES,
            EVENT_PORT => EVENT_PORT_LINES,
            DATA_PORT => DATA_PORT_LINES,
            SOME_CLASS => SOME_CLASS_LINES,
            SOME_BODY => SOME_BODY_LINES,
            SOME_BRACES => SOME_BRACES_LINES,
            SUBCOMPONENTS => SUBCOMPONENTS_LINES,
            SUB_LIST => SUB_LIST_LINES,
            SUB_ITEMS => SUB_ITEMS_LINES,
            SUB => SUB_LINES,
            SUB_CATEGORY => SUB_CATEGORY_LINES,
            CONNECTIONS => CONNECTIONS_LINES,
            WIRE_LIST => WIRE_LIST_LINES,
            WIRE_ITEMS => WIRE_ITEMS_LINES,
            WIRE => WIRE_LINES,
            PLACE => PLACE_LINES,
            SOME_PORT => SOME_PORT_LINES,
            ANNEX => ANNEX_LINES,
            FLOWS => FLOWS_LINES,
            PROPERTIES => PROPERTIES_LINES,
            SKIPPED_LIST => SKIPPED_LIST_LINES,
            SKIPPED_ITEMS => SKIPPED_ITEMS_LINES,
            OTHER => OTHER_LINES,
            SKIP => SKIP_LINES,
            GROUP => GROUP_LINES,
            BRACES => BRACES_LINES,
            INSIDE => INSIDE_LINES,
            PLAIN => PLAIN_LINES,
            QUIET => QUIET_LINES,
            BRACKET => BRACKET_LINES,
            FOREIGN => FOREIGN_LINES,
            BEHIND_END => BEHIND_END_LINES,
            BEHIND_NAME => BEHIND_NAME_LINES,
            BEHIND_COLONS => BEHIND_COLONS_LINES,
            BEHIND_DOT => BEHIND_DOT_LINES,
            _ => BEHIND_BODY_LINES,
        }
    }
}

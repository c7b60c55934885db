//! The productions of the grammar by name, as the steps of a derivation call them.

pub const ONE_PACKAGE: u16 = 0;

pub const NO_PACKAGE: u16 = 1;

pub const PACKAGE_WHOLE: u16 = 2;

pub const PNAME_WHOLE: u16 = 3;

pub const ONE_MORE_NAME: u16 = 4;

pub const NO_MORE_NAME: u16 = 5;

pub const ONE_WITH: u16 = 6;

pub const NO_WITH: u16 = 7;

pub const ONE_IMPORT: u16 = 8;

pub const NO_IMPORT: u16 = 9;

pub const ONE_COMPONENT: u16 = 10;

pub const ONE_FOREIGN: u16 = 11;

pub const ONE_ANNEX: u16 = 12;

pub const NO_DECLARATION: u16 = 13;

pub const SOME_PROPERTIES: u16 = 14;

pub const NO_PROPERTIES: u16 = 15;

pub const A_SYSTEM: u16 = 16;

pub const A_PROCESS: u16 = 17;

pub const A_THREAD: u16 = 18;

pub const A_DEVICE: u16 = 19;

pub const A_ABSTRACT: u16 = 20;

pub const COMPONENT_WHOLE: u16 = 21;

pub const FRAME: u16 = 22;

pub const BODY: u16 = 23;

pub const FRAME_FEATURES: u16 = 24;

pub const FRAME_FLOWS: u16 = 25;

pub const FRAME_PROPERTIES: u16 = 26;

pub const FRAME_ANNEX: u16 = 27;

pub const FRAME_END: u16 = 28;

pub const BODY_SUBCOMPONENTS: u16 = 29;

pub const BODY_CONNECTIONS: u16 = 30;

pub const BODY_FLOWS: u16 = 31;

pub const BODY_PROPERTIES: u16 = 32;

pub const BODY_ANNEX: u16 = 33;

pub const BODY_END: u16 = 34;

pub const FEATURES_WHOLE: u16 = 35;

pub const FEATURES_NONE: u16 = 36;

pub const FEATURES_SOME: u16 = 37;

pub const ONE_FEATURE: u16 = 38;

pub const NO_FEATURE: u16 = 39;

pub const A_PORT: u16 = 40;

pub const REQUIRED: u16 = 41;

pub const PROVIDED: u16 = 42;

pub const INWARD: u16 = 43;

pub const OUTWARD: u16 = 44;

pub const WITH_EVENT: u16 = 45;

pub const WITHOUT_EVENT: u16 = 46;

pub const EVENT_DATA: u16 = 47;

pub const EVENT_ALONE: u16 = 48;

pub const DATA_PORT_WHOLE: u16 = 49;

pub const A_CLASS: u16 = 50;

pub const NO_CLASS: u16 = 51;

pub const A_BODY: u16 = 52;

pub const NO_BODY: u16 = 53;

pub const A_BRACES: u16 = 54;

pub const NO_BRACES: u16 = 55;

pub const SUBCOMPONENTS_WHOLE: u16 = 56;

pub const SUBS_NONE: u16 = 57;

pub const SUBS_SOME: u16 = 58;

pub const ONE_SUB: u16 = 59;

pub const NO_SUB: u16 = 60;

pub const A_SUB: u16 = 61;

pub const ANOTHER_SUB: u16 = 62;

pub const SUB_SYSTEM: u16 = 63;

pub const SUB_PROCESS: u16 = 64;

pub const SUB_THREAD: u16 = 65;

pub const SUB_DEVICE: u16 = 66;

pub const SUB_ABSTRACT: u16 = 67;

pub const CONNECTIONS_WHOLE: u16 = 68;

pub const WIRES_NONE: u16 = 69;

pub const WIRES_SOME: u16 = 70;

pub const ONE_WIRE: u16 = 71;

pub const NO_WIRE: u16 = 72;

pub const A_WIRE: u16 = 73;

pub const A_BUS_WIRE: u16 = 74;

pub const A_DATA_WIRE: u16 = 75;

pub const A_SUBPROGRAM_WIRE: u16 = 76;

pub const A_PARAMETER_WIRE: u16 = 77;

pub const PLACE_WHOLE: u16 = 78;

pub const A_SPOT_PORT: u16 = 79;

pub const NO_SPOT_PORT: u16 = 80;

pub const ANNEX_WHOLE: u16 = 81;

pub const FLOWS_WHOLE: u16 = 82;

pub const PROPERTIES_WHOLE: u16 = 83;

pub const SKIPPED_NONE: u16 = 84;

pub const SKIPPED_SOME: u16 = 85;

pub const ONE_SKIPPED: u16 = 86;

pub const NO_SKIPPED: u16 = 87;

pub const OTHER_DATA: u16 = 88;

pub const OTHER_SUBPROGRAM: u16 = 89;

pub const OTHER_PROCESSOR: u16 = 90;

pub const OTHER_MEMORY: u16 = 91;

pub const OTHER_BUS: u16 = 92;

pub const SKIP_END: u16 = 93;

pub const SKIP_TOKEN: u16 = 94;

pub const SKIP_GROUP: u16 = 95;

pub const PARENS: u16 = 96;

pub const BRACKETS: u16 = 97;

pub const BRACES_GROUP: u16 = 98;

pub const BRACES_WHOLE: u16 = 99;

pub const INSIDE_TOKEN: u16 = 100;

pub const INSIDE_SEMICOLON: u16 = 101;

pub const INSIDE_GROUP: u16 = 102;

pub const INSIDE_END: u16 = 103;

pub const PLAIN_NAME: u16 = 104;

pub const PLAIN_END: u16 = 105;

pub const PLAIN_COLONS: u16 = 106;

pub const PLAIN_DOT: u16 = 107;

pub const PLAIN_QUIET: u16 = 108;

pub const QUIET_PACKAGE_WORD: u16 = 109;

pub const QUIET_PUBLIC_WORD: u16 = 110;

pub const QUIET_WITH_WORD: u16 = 111;

pub const QUIET_SYSTEM_WORD: u16 = 112;

pub const QUIET_PROCESS_WORD: u16 = 113;

pub const QUIET_THREAD_WORD: u16 = 114;

pub const QUIET_DEVICE_WORD: u16 = 115;

pub const QUIET_ABSTRACT_WORD: u16 = 116;

pub const QUIET_DATA_WORD: u16 = 117;

pub const QUIET_SUBPROGRAM_WORD: u16 = 118;

pub const QUIET_PROCESSOR_WORD: u16 = 119;

pub const QUIET_MEMORY_WORD: u16 = 120;

pub const QUIET_BUS_WORD: u16 = 121;

pub const QUIET_IMPLEMENTATION_WORD: u16 = 122;

pub const QUIET_FEATURES_WORD: u16 = 123;

pub const QUIET_FLOWS_WORD: u16 = 124;

pub const QUIET_PROPERTIES_WORD: u16 = 125;

pub const QUIET_SUBCOMPONENTS_WORD: u16 = 126;

pub const QUIET_CONNECTIONS_WORD: u16 = 127;

pub const QUIET_ANNEX_WORD: u16 = 128;

pub const QUIET_IN_WORD: u16 = 129;

pub const QUIET_OUT_WORD: u16 = 130;

pub const QUIET_EVENT_WORD: u16 = 131;

pub const QUIET_PORT_WORD: u16 = 132;

pub const QUIET_REQUIRES_WORD: u16 = 133;

pub const QUIET_PROVIDES_WORD: u16 = 134;

pub const QUIET_PARAMETER_WORD: u16 = 135;

pub const QUIET_NONE_WORD: u16 = 136;

pub const QUIET_OTHER_WORD: u16 = 137;

pub const QUIET_COMMA: u16 = 138;

pub const QUIET_COLON: u16 = 139;

pub const QUIET_ARROW: u16 = 140;

pub const QUIET_GIVES: u16 = 141;

pub const QUIET_ANNEX_TEXT: u16 = 142;

pub const QUIET_OTHER_TOKEN: u16 = 143;

pub const BRACKET_OPEN_PAREN: u16 = 144;

pub const BRACKET_CLOSE_PAREN: u16 = 145;

pub const BRACKET_OPEN_BRACKET: u16 = 146;

pub const BRACKET_CLOSE_BRACKET: u16 = 147;

pub const BRACKET_OPEN_BRACE: u16 = 148;

pub const BRACKET_CLOSE_BRACE: u16 = 149;

pub const FOREIGN_QUIET: u16 = 150;

pub const FOREIGN_BRACKET: u16 = 151;

pub const FOREIGN_NAME: u16 = 152;

pub const FOREIGN_COLONS: u16 = 153;

pub const FOREIGN_DOT: u16 = 154;

pub const FOREIGN_SEMICOLON: u16 = 155;

pub const FOREIGN_END: u16 = 156;

pub const BEHIND_END_QUIET: u16 = 157;

pub const BEHIND_END_BRACKET: u16 = 158;

pub const BEHIND_END_NAME: u16 = 159;

pub const BEHIND_END_COLONS: u16 = 160;

pub const BEHIND_END_DOT: u16 = 161;

pub const BEHIND_END_SEMICOLON: u16 = 162;

pub const BEHIND_END_END: u16 = 163;

pub const BEHIND_NAME_QUIET: u16 = 164;

pub const BEHIND_NAME_BRACKET: u16 = 165;

pub const BEHIND_NAME_NAME: u16 = 166;

pub const BEHIND_NAME_COLONS: u16 = 167;

pub const BEHIND_NAME_DOT: u16 = 168;

pub const BEHIND_NAME_SEMICOLON: u16 = 169;

pub const BEHIND_NAME_END: u16 = 170;

pub const BEHIND_COLONS_QUIET: u16 = 171;

pub const BEHIND_COLONS_BRACKET: u16 = 172;

pub const BEHIND_COLONS_NAME: u16 = 173;

pub const BEHIND_COLONS_COLONS: u16 = 174;

pub const BEHIND_COLONS_DOT: u16 = 175;

pub const BEHIND_COLONS_SEMICOLON: u16 = 176;

pub const BEHIND_COLONS_END: u16 = 177;

pub const BEHIND_DOT_QUIET: u16 = 178;

pub const BEHIND_DOT_BRACKET: u16 = 179;

pub const BEHIND_DOT_NAME: u16 = 180;

pub const BEHIND_DOT_COLONS: u16 = 181;

pub const BEHIND_DOT_DOT: u16 = 182;

pub const BEHIND_DOT_SEMICOLON: u16 = 183;

pub const BEHIND_DOT_END: u16 = 184;

pub const BEHIND_BODY_QUIET: u16 = 185;

pub const BEHIND_BODY_BRACKET: u16 = 186;

pub const BEHIND_BODY_NAME: u16 = 187;

pub const BEHIND_BODY_COLONS: u16 = 188;

pub const BEHIND_BODY_DOT: u16 = 189;

pub const BEHIND_BODY_SEMICOLON: u16 = 190;

pub const BEHIND_BODY_END: u16 = 191;

// The states of the machine that reads a pattern and writes its nodes as they close.
#![tactic(auto)]

// What is read last, as `Reading` in the grammar's machine; what is open is on the stack, by which the places of names and bounds are told apart.
#[derive(Clone, Copy)]
pub enum ReadState {
    Begin,
    Expect,
    BehindAmp,
    BehindRef,
    BehindMut,
    AtName,
    AtBound,
    AtPath,
    AtSep,
    AtMinus,
    AtLiteral,
    AtDots,
    AtFrom,
    AtTo,
    AtToPath,
    AtAlt,
    AtBrace,
    AtLabel,
    AtIndex,
    AtField,
    AtEtc,
}

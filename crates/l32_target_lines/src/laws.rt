// The law. The function does nothing; its clause is the law.
ghost use Rattle.l32_target_lines.specs.Lines.{LinesDo};

/// The law: a line does what it is judged to do, where what it reads can be read and no divisor is 0.
pub fn lines_do()
    ensures { LinesDo }
{}
